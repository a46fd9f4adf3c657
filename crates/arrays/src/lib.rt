// The arrays of the lock scheduler in three structs, tasks, entries and open sections: each scan and store is the machine's own search or change.
// They are arrays of a fixed size beside a count, as nothing is allocated; those of tasks and entries are one to a field, as scans over one become
// wide instructions (docs/DESIGN-PASS.md has what an array of records took).
#![tactic(auto)]

mod counts;
mod denial;
mod entries;
mod marks;
mod place;
mod rules;
mod scans;
mod sections;
mod status;
mod tasks;

pub use counts::count_at;
pub use denial::Denial;
pub use entries::Entries;
pub use marks::admitted;
pub use place::Place;
pub use sections::Sections;
pub use status::Status;
pub use tasks::Tasks;

// A job's number: its task's priority and its serial.
#[derive(Clone, Copy, PartialEq, Eq, Debug)]
pub struct Number {
    pub priority: u8,
    pub serial: u16,
}
