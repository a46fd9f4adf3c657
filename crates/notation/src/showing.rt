// The text of a table, in columns.
ghost use Rattle.std.specs.Prelude.{◌*◌, ◌≤◌};
ghost use Rattle.words.specs.Pages.{room, Puts};
ghost use Rattle.notation.specs.Columns.{column_number};
ghost use Rattle.notation.specs.Kinds.{first_column, column_count, record_size};
ghost use Rattle.notation.specs.Showing.{padded, spacing, cell_text, row_text, rows_text, table_text, shown};

use crate::columns::Column;
use crate::kinds::Kind;
use table::Shape;
use words::Page;

// As many spaces as a value is ever laid out with.
const SPACES: &[u8] = b"        ";

impl Column {
    // Puts what stands after a value.
    fn put_spacing(self, page: &mut Page)
        requires { 2 ≤ room page.old }
        ensures { Puts page.old (spacing (column_number self)) page.new }
    {
        match self {
            Column::Period | Column::Length => page.text(b"\n"),
            _ => page.text(b"  "),
        }
    }
}

// Puts a value, right under right.
fn put_padded(page: &mut Page, column: Column, value: u32)
    requires { 28 ≤ room page.old }
    ensures { Puts page.old (padded (column_number column) value) page.new }
{
    let mut digits = [0; 20];
    let count = io::decimal(u64::from(value), &mut digits);
    let missing = column.width().saturating_sub(count);
    page.text(&SPACES[..missing + 1]);
    page.text(&digits[..count]);
}

// Puts a column's name and value.
#[tactic(auto, using(words::proofs::Pages::pages, crate::proofs::Sizes::name_most, crate::proofs::Sizes::padded_most), unfolding(crate::specs::Showing::cell_text))]
fn put_cell(page: &mut Page, column: Column, value: u32)
    requires { 38 ≤ room page.old }
    ensures { Puts page.old (cell_text (column_number column) value) page.new }
{
    column.put_name(page);
    put_padded(page, column, value);
    column.put_spacing(page);
}

// Puts the line of the record of a kind that starts at a place.
fn put_row(page: &mut Page, bytes: &[u8], kind: Kind, place: usize)
    requires { (place ≤ 20000) × (38 * column_count kind ≤ room page.old) }
    ensures { Puts page.old (row_text bytes.now (first_column kind) (column_count kind) place) page.new }
{
    for column in kind.columns() {
        put_cell(page, *column, column.field_at(bytes, place));
    }
}

// Puts the lines of so many records of a kind, from a place on.
fn put_rows(page: &mut Page, bytes: &[u8], kind: Kind, from: usize, count: usize)
    requires { (from ≤ 640) × (count ≤ 512) × (266 * count ≤ room page.old) }
    ensures { Puts page.old (rows_text bytes.now (first_column kind) (column_count kind) from (record_size kind) count) page.new }
{
    for i in 0..count {
        put_row(page, bytes, kind, from + kind.size() * i);
    }
}

// Puts the text of an accepted table.
fn put_table(page: &mut Page, bytes: &[u8], shape: Shape)
    requires { (shape.tasks ≤ 32) × (shape.uses_at ≤ 640) × (shape.uses ≤ 512) × (262144 ≤ room page.old) }
    ensures { Puts page.old (table_text bytes.now shape.tasks shape.uses_at shape.uses) page.new }
{
    page.text(
        b"# A task table: first the tasks, by falling priority, then their uses of resources, in the same order.\n",
    );
    page.text(
        b"# run, sleep, deadline, period and length are times, all in one unit; docs/NOTATION.md has the ranges.\n",
    );
    put_rows(page, bytes, Kind::Task, 0, shape.tasks);
    put_rows(page, bytes, Kind::Use, shape.uses_at, shape.uses);
}

// Puts the text of a table, or the line of its refusal.
#[tactic(auto, using(words::proofs::Pages::pages, words::proofs::Words::refusal_few), unfolding(crate::specs::Showing::shown))]
pub fn put_shown(page: &mut Page, bytes: &[u8])
    requires { 262144 ≤ room page.old }
    ensures { Puts page.old (shown bytes.now) page.new }
{
    match table::read(bytes) {
        Ok(shape) => put_table(page, bytes, shape),
        Err(refusal) => page.refusal(refusal),
    }
}
