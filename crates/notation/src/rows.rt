// What a line of text says.
ghost use Rattle.std.specs.Prelude.{◌≡◌, ◌+◌, ◌*◌, ◌≤◌, length};
ghost use Rattle.notation.specs.Columns.{column_number, value_bytes};
ghost use Rattle.notation.specs.Kinds.{first_column, column_count};
ghost use Rattle.words.specs.Finding.{word_start, is_number};
ghost use Rattle.words.specs.Writing.{Put};
ghost use Rattle.notation.specs.Rows.{number_at, cell_at, row_end, cells_from, row_at};
ghost use Rattle.notation.specs.Taking.{CellRead, RowRead, TakenPut};

use crate::causes::Cause;
use crate::columns::Column;
use crate::cursor::{Cursor, Span};
use crate::kinds::Kind;
use words::{Class, run_end, same};

// A column's value, and the place where it ends.
#[derive(Clone, Copy)]
pub struct Cell {
    pub end: usize,
    pub value: u32,
}

// What is wrong with a line: the cause, with the column and the word at fault.
#[derive(Clone, Copy)]
pub struct Misfit {
    pub cause: Cause,
    pub column: Option<Column>,
    pub at: usize,
}

impl Misfit {
    // A cause, with the column and the word that it speaks of.
    fn of(cause: Cause, column: Option<Column>, at: usize) -> Misfit
        ensures { result ≡ record { cause = cause; column = column; at = at } }
    {
        Misfit { cause, column, at }
    }
}

// What was taken of a line without fault: the place where its words end, and where the bytes of its record end.
#[derive(Clone, Copy)]
pub struct Taken {
    pub at: usize,
    pub count: usize,
}

// Whether a word is a number.
fn is_number(word: &[u8]) -> bool
    ensures { result ≡ is_number word.now }
{
    !word.is_empty() && run_end(word, 0, Class::Digit) == word.len()
}

// Puts a value of a column as bytes, and answers the place after them.
fn put_value(records: &mut [u8], at: usize, column: Column, value: u32) -> usize
    requires { at + 4 ≤ length records.old }
    ensures put { Put records.old at (value_bytes (column_number column) value) records.new result }
    ensures upper_bound { result ≤ at + 4 }
{
    if column.is_wide() {
        held::put_word(records, at, value);
        at + 4
    } else {
        records[at] = (value % 256) as u8;
        at + 1
    }
}

impl Cursor<'_> {
    // The value of a column.
    fn number(&self, column: Column) -> Result<Cell, Misfit>
        ensures { CellRead self.now.text.now (column_number column) (number_at self.now.text.now self.now.at (column_number column)) result }
    {
        let Span { start, end } = self.next_word();
        let word = &self.text[start..end];
        if !is_number(word) {
            return Err(Misfit::of(Cause::NoNumber, Some(column), start));
        }
        let value = words::value(word);
        if value < column.least() {
            return Err(Misfit::of(Cause::BelowRange, Some(column), start));
        }
        if column.most() < value {
            return Err(Misfit::of(Cause::AboveRange, Some(column), start));
        }
        Ok(Cell { end, value })
    }

    // The name of a column and its value.
    fn cell(&self, column: Column) -> Result<Cell, Misfit>
        ensures { CellRead self.now.text.now (column_number column) (cell_at self.now.text.now self.now.at (column_number column)) result }
    {
        let text = self.text;
        let Span { start, end } = self.next_word();
        if !same(&text[start..end], column.name()) {
            return Err(Misfit::of(Cause::OtherName, Some(column), start));
        }
        Cursor { text, at: end }.number(column)
    }

    // The end of the line, where no word is left.
    fn row_end(&self, count: usize) -> Result<Taken, Misfit>
        ensures { RowRead self.now.text.now (row_end self.now.text.now (word_start self.now.text.now self.now.at)) count result }
    {
        let Span { start, end } = self.next_word();
        if start < end {
            return Err(Misfit::of(Cause::MoreWords, None, start));
        }
        Ok(Taken { at: start, count })
    }

    // Puts the values of a kind's columns as bytes, as far as the line has them.
    fn put_cells(&self, kind: Kind, records: &mut [u8], count: usize) -> Result<Taken, Misfit>
        requires { count + 4 * column_count kind ≤ length records.old }
        ensures { TakenPut self.now.text.now (cells_from (column_count kind) self.now.text.now self.now.at (first_column kind)) records.old count records.new result }
    {
        let text = self.text;
        let mut place = self.at;
        let mut end = count;
        for column in kind.columns() {
            let cell = Cursor { text, at: place }.cell(*column)?;
            end = put_value(records, end, *column, cell.value);
            place = cell.end;
        }
        Cursor { text, at: place }.row_end(end)
    }

    // Puts the record of the line, as far as the line has it.
    pub fn put_row(&self, records: &mut [u8], count: usize) -> Result<Taken, Misfit>
        requires { count + 29 ≤ length records.old }
        ensures { TakenPut self.now.text.now (row_at self.now.text.now self.now.at) records.old count records.new result }
    {
        let text = self.text;
        let Span { start, end } = self.next_word();
        if start == end {
            return Ok(Taken { at: start, count });
        }
        let Some(kind) = Kind::named(&text[start..end]) else {
            return Err(Misfit::of(Cause::FirstWord, None, start));
        };
        records[count] = kind.number();
        Cursor { text, at: start }.put_cells(kind, records, count + 1)
    }
}
