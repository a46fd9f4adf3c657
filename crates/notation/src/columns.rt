// The columns of a line: the name before a value, its range, its width and where it lies in a record.
ghost use Rattle.std.specs.Prelude.{◌≡◌, ◌+◌, ◌≤◌, length};
ghost use Rattle.words.specs.Pages.{room, Puts};
ghost use Rattle.notation.specs.Columns.{column_number, column_of, name, least, most, width, wide, offset, field_at};

use words::Page;

// A column: the first seven are a task's, the others a use's.
#[derive(Clone, Copy, PartialEq, Eq, Debug)]
pub enum Column {
    Task,
    Setting,
    Sleeps,
    Run,
    Sleep,
    Deadline,
    Period,
    Use,
    Resource,
    Times,
    Length,
}

impl Column {
    // The column of a number; from 11 on there is none.
    pub fn of(number: u8) -> Option<Column>
        ensures { result ≡ column_of number }
    {
        match number {
            0 => Some(Column::Task),
            1 => Some(Column::Setting),
            2 => Some(Column::Sleeps),
            3 => Some(Column::Run),
            4 => Some(Column::Sleep),
            5 => Some(Column::Deadline),
            6 => Some(Column::Period),
            7 => Some(Column::Use),
            8 => Some(Column::Resource),
            9 => Some(Column::Times),
            10 => Some(Column::Length),
            _ => None,
        }
    }

    // The name that stands before the value.
    #[tactic(auto, unfolding(crate::specs::Columns::name))]
    pub fn name(self) -> &'static [u8]
        ensures value { result.now ≡ name (column_number self) }
        ensures upper_bound { length result.now ≤ 8 }
    {
        match self {
            Column::Task => b"task",
            Column::Setting => b"setting",
            Column::Sleeps => b"sleeps",
            Column::Run => b"run",
            Column::Sleep => b"sleep",
            Column::Deadline => b"deadline",
            Column::Period => b"period",
            Column::Use => b"use",
            Column::Resource => b"resource",
            Column::Times => b"times",
            Column::Length => b"length",
        }
    }

    // Puts the name. Each is a text of its own here, whose length the compiler knows: to put what `name` answers takes a call that copies it.
    #[tactic(auto, using(words::proofs::Pages::pages), unfolding(crate::specs::Columns::name))]
    pub(crate) fn put_name(self, page: &mut Page)
        requires { 8 ≤ room page.old }
        ensures { Puts page.old (name (column_number self)) page.new }
    {
        match self {
            Column::Task => page.text(b"task"),
            Column::Setting => page.text(b"setting"),
            Column::Sleeps => page.text(b"sleeps"),
            Column::Run => page.text(b"run"),
            Column::Sleep => page.text(b"sleep"),
            Column::Deadline => page.text(b"deadline"),
            Column::Period => page.text(b"period"),
            Column::Use => page.text(b"use"),
            Column::Resource => page.text(b"resource"),
            Column::Times => page.text(b"times"),
            Column::Length => page.text(b"length"),
        }
    }

    // The least value.
    #[tactic(auto, unfolding(crate::specs::Columns::least))]
    pub(crate) fn least(self) -> u32
        ensures { result ≡ least (column_number self) }
    {
        match self {
            Column::Setting | Column::Sleeps | Column::Sleep => 0,
            _ => 1,
        }
    }

    // The largest value.
    #[tactic(auto, unfolding(crate::specs::Columns::most))]
    pub(crate) fn most(self) -> u32
        ensures { result ≡ most (column_number self) }
    {
        match self {
            Column::Setting => 254,
            Column::Sleeps => 64,
            Column::Resource => 16,
            Column::Task | Column::Use | Column::Times => 255,
            _ => 1000000,
        }
    }

    // How many digits are laid out for the value.
    #[tactic(auto, unfolding(crate::specs::Columns::width))]
    pub(crate) fn width(self) -> usize
        ensures { (result ≡ width (column_number self)) × (result ≤ 7) }
    {
        match self {
            Column::Sleeps | Column::Resource => 2,
            Column::Task | Column::Setting | Column::Times => 3,
            Column::Use => 4,
            _ => 7,
        }
    }

    // Whether the value has four bytes: a time.
    #[tactic(auto, unfolding(crate::specs::Columns::wide))]
    pub(crate) fn is_wide(self) -> bool
        ensures { result ≡ wide (column_number self) }
    {
        matches!(
            self,
            Column::Run | Column::Sleep | Column::Deadline | Column::Period | Column::Length
        )
    }

    // Where the value starts in its record.
    #[tactic(auto, unfolding(crate::specs::Columns::offset))]
    fn offset(self) -> usize
        ensures { (result ≡ offset (column_number self)) × (result ≤ 16) }
    {
        match self {
            Column::Task | Column::Use => 1,
            Column::Setting | Column::Resource => 2,
            Column::Sleeps | Column::Times => 3,
            Column::Run | Column::Length => 4,
            Column::Sleep => 8,
            Column::Deadline => 12,
            Column::Period => 16,
        }
    }

    // The value in the record that starts at a place.
    pub(crate) fn field_at(self, bytes: &[u8], at: usize) -> u32
        requires { at + 16 ≤ 18446744073709551615 }
        ensures { result ≡ field_at bytes.now at (column_number self) }
    {
        let place = at + self.offset();
        if self.is_wide() {
            table::word_at(bytes, place)
        } else {
            u32::from(table::byte_at(bytes, place))
        }
    }
}
