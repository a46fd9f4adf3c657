// The right side of a task's equation, read off an accepted table's bytes: no copy of the table, and none of the section bag.
#![tactic(auto)]

ghost use Rattle.equations.specs.Ceilings.{CeilingsAre};

mod additions;
mod keeps;
mod numbers;
mod packed;
mod picks;
mod scans;
mod sides;

pub use keeps::KeptUses;
pub use packed::Word;
pub use scans::ceilings;
use table::Table;

// The equations of an accepted table under some settings.
#[derive(Clone, Copy)]
pub struct Equations<'a, 'b> {
    pub table: Table<'a>,
    pub settings: &'b [u8; 32],
}

// Equations, and the ceilings of their table's resources, by their numbers: what is asked once of a task looks at these, its right sides don't.
#[derive(Clone, Copy)]
pub struct Listed<'a, 'b, 'c> {
    pub equations: Equations<'a, 'b>,
    pub ceilings: &'c [u8; 32],
    pub ghost listed: { CeilingsAre equations.table.bytes.now equations.table.shape ceilings.now },
}

// A task, by its place, and a length t.
#[derive(Clone, Copy)]
pub struct At {
    pub task: usize,
    pub length: u64,
}

// What is worked out of a task once, for all its right sides: its place, its most sleeps, and B0.
#[derive(Clone, Copy)]
pub struct Query {
    pub task: usize,
    pub sleeps: u8,
    pub extra: u64,
}
