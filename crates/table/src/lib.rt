// Task tables as bytes: reading one whole, the fields of its records, and a task's record as the caller's own bytes.
#![tactic(auto)]

ghost use Rattle.std.specs.Prelude.{◌≡◌, Some};
ghost use Rattle.table.specs.Reading.{read_table};
ghost use Rattle.table.specs.Replies.{told_of, refusal_text, why_number};
ghost use Rattle.table.specs.Records.{record_of};

mod accepted_table;
mod fields;
mod numbered;
mod rules;
mod walk;

pub use accepted_table::Table;
pub use fields::{byte_at, no_task, no_use, task_at, use_at, whole_word, word_at};
pub use numbered::{Numbered, Refuses};
pub use rules::place_of;
use std::error::Error;
use std::fmt;
use walk::{Step, Walk};

// A task: its priority, system setting, most sleeps X, run time C, sleep S, deadline D and period T.
#[derive(Clone, Copy, PartialEq, Eq, Debug, Default)]
pub struct Task {
    pub priority: u8,
    pub setting: u8,
    pub sleeps: u8,
    pub run: u32,
    pub sleep: u32,
    pub deadline: u32,
    pub period: u32,
}

// A use of a resource: the task's priority, the resource, how often N at most and how long L each.
#[derive(Clone, Copy, PartialEq, Eq, Debug, Default)]
pub struct Use {
    pub priority: u8,
    pub resource: u8,
    pub times: u8,
    pub length: u32,
}

// What an accepted table has: its tasks, the place where its uses start, and its uses.
#[derive(Clone, Copy, PartialEq, Eq, Debug, Default)]
pub struct Shape {
    pub tasks: usize,
    pub uses_at: usize,
    pub uses: usize,
}

// Why a table, or a call on it, is refused.
#[derive(Clone, Copy, PartialEq, Eq, Debug)]
pub enum Why {
    // a kind byte or a body that is not all there
    Cut,
    // a kind that is unknown
    Kind,
    // a record that may not stand where it does
    Order,
    // a 33rd task
    TooMany,
    // a field outside its range
    Range,
    // sections that add up to more than the task's run time
    Sections,
    // bytes after the end
    Beyond,
    // more evaluations than the analysis is allowed
    Allowance,
    // fewer rows than tasks, for the report
    Rows,
    // less room than the bytes need, for the writer
    Room,
}

impl Why {
    // The number by which a host knows it.
    pub fn number(self) -> u8
        ensures { result ≡ why_number self }
    {
        match self {
            Why::Cut => 1,
            Why::Kind => 2,
            Why::Order => 3,
            Why::TooMany => 4,
            Why::Range => 5,
            Why::Sections => 6,
            Why::Beyond => 7,
            Why::Allowance => 8,
            Why::Rows => 9,
            Why::Room => 10,
        }
    }

    // The refusal for this reason at a place.
    pub fn at(self, place: usize) -> Refusal
        ensures { result ≡ record { why = self; place = place } }
    {
        Refusal { why: self, place }
    }
}

// A refusal: why, and at which place.
#[derive(Clone, Copy, PartialEq, Eq, Debug)]
pub struct Refusal {
    pub why: Why,
    pub place: usize,
}

impl fmt::Display for Refusal {
    ghost output = { λ r. Some (refusal_text r) };

    fn fmt<W: fmt::Write>(&self, f: &mut fmt::Formatter<W>) -> fmt::Result {
        let number = self.why.number();
        let place = self.place;
        write!(f, "refused {number} at {place}")
    }
}

impl Error for Refusal {}

impl Refuses for Refusal {
    ghost numbered = { λ r. why_number r.why };

    ghost placed = { λ r. r.place };

    fn number(self) -> u8 {
        self.why.number()
    }

    fn place(self) -> usize {
        self.place
    }
}

// Reads a table: all of the bytes, whatever they are.
pub fn read(bytes: &[u8]) -> Result<Shape, Refusal>
    ensures { result ≡ read_table bytes.now }
{
    let mut walk = Walk::start();
    // no index is counted: how far a step goes is what the record says
    loop {
        match walk.step(bytes)? {
            Step::On(next) => walk = next,
            Step::Done(shape) => return Ok(shape),
        }
    }
}

// The number of a refusal, 0 of any other answer.
pub fn number<T: Drop, R: Refuses>(answer: Result<T, R>) -> u8
    ensures { result ≡ told_of R.numbered answer }
{
    match &answer {
        Ok(_) => 0,
        Err(refusal) => refusal.number(),
    }
}

// The place of a refusal, 0 of any other answer.
pub fn place<T: Drop, R: Refuses>(answer: Result<T, R>) -> usize
    ensures { result ≡ told_of R.placed answer }
{
    match &answer {
        Ok(_) => 0,
        Err(refusal) => refusal.place(),
    }
}

// The record of the task with this priority, as the caller's own bytes: an empty part for an absent task or a refused table.
pub fn record_of(bytes: &[u8], priority: u8) -> &[u8]
    ensures { result.now ≡ record_of bytes.now priority }
{
    let Ok(shape) = read(bytes) else {
        return &bytes[0..0];
    };
    let tasks = shape.tasks;
    let i = rules::place_of(bytes, tasks, 0, priority);
    if i < tasks {
        let at = 20 * i;
        return &bytes[at..at + 20];
    }
    &bytes[0..0]
}
