// The lock scheduler: its state is carried by value, one array to a field, and each call answers the next state.
#![tactic(auto)]

ghost use Rattle.std.specs.Prelude.{◌≡◌, ◌≤◌};
ghost use Rattle.arrays.specs.Denials.{refusal_number};

mod answers;
mod calls;
mod jobs;
mod ruling;
mod sections;
mod setup;

pub use arrays::{Denial, Entries, Number, Sections, Tasks};
pub use calls::Call;
pub use setup::{SetUp, set_up};

// The tasks, which no call changes, their entries, and the open sections.
#[derive(Clone, Copy)]
pub struct Scheduler {
    pub tasks: Tasks,
    pub entries: Entries,
    pub sections: Sections,
}

// What a call answers: why it is refused, if it is, the running job's number, if one runs, and the next state.
#[derive(Clone, Copy)]
pub struct Reply {
    pub refusal: Option<Denial>,
    pub running: Option<Number>,
    pub state: Scheduler,
}

// The number of a reply's refusal, 0 where there is none.
pub fn refusal_number(refusal: Option<Denial>) -> u8
    ensures { result ≡ refusal_number refusal }
{
    match refusal {
        None => 0,
        Some(denial) => denial.number(),
    }
}
