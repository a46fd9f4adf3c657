// The kinds of a record: a task or a use.
ghost use Rattle.std.specs.Prelude.{◌≡◌, map};
ghost use Rattle.std.specs.List.{range_with_len};
ghost use Rattle.notation.specs.Columns.{column_number};
ghost use Rattle.notation.specs.Kinds.{kind_number, kind_named, first_column, column_count, record_size};

use crate::columns::Column;
use words::same;

// A task's columns, in the order of its line.
const OF_TASK: [Column; 7] = [
    Column::Task,
    Column::Setting,
    Column::Sleeps,
    Column::Run,
    Column::Sleep,
    Column::Deadline,
    Column::Period,
];

// A use's columns, in the order of its line.
const OF_USE: [Column; 4] = [Column::Use, Column::Resource, Column::Times, Column::Length];

// The first byte of the end record.
pub const END: u8 = 3;

// What a record is of.
#[derive(Clone, Copy, PartialEq, Eq)]
pub enum Kind {
    Task,
    Use,
}

impl Kind {
    // The kind that a line's first word names.
    pub fn named(word: &[u8]) -> Option<Kind>
        ensures { result ≡ kind_named word.now }
    {
        if same(word, Column::Task.name()) {
            return Some(Kind::Task);
        }
        if same(word, Column::Use.name()) {
            return Some(Kind::Use);
        }
        None
    }

    // The first byte of its record.
    pub fn number(self) -> u8
        ensures { result ≡ kind_number self }
    {
        match self {
            Kind::Task => 1,
            Kind::Use => 2,
        }
    }

    // Its columns, in the order of its line.
    pub fn columns(self) -> &'static [Column]
        ensures { map column_number result.now ≡ range_with_len (first_column self) (column_count self) }
    {
        match self {
            Kind::Task => &OF_TASK,
            Kind::Use => &OF_USE,
        }
    }

    // How many bytes its record has.
    pub fn size(self) -> usize
        ensures { result ≡ record_size self }
    {
        match self {
            Kind::Task => 20,
            Kind::Use => 8,
        }
    }
}
