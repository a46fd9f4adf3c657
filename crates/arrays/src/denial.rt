// The refusals of calls.
ghost use Rattle.std.specs.Prelude.{◌≡◌};
ghost use Rattle.arrays.specs.Denials.{denial_number};

// Why a call is refused.
#[derive(Clone, Copy, PartialEq, Eq, Debug)]
pub enum Denial {
    // no task has the priority
    NoTask,
    // its job is unfinished
    Unfinished,
    // the running job has another number
    Stranger,
    // the task has no use of the resource
    NoUse,
    // the job holds a section, or 16 are open
    Held,
    // the job has opened N sections of the resource
    Reached,
    // the job holds no section of the resource
    NotHeld,
    // the job holds a section
    Inside,
    // the job has slept X times
    Sleepless,
    // no job sleeps under the number
    NoSleeper,
    // the state is unfit
    Unfit,
}

impl Denial {
    // The number of a refusal.
    pub fn number(self) -> u8
        ensures { result ≡ denial_number self }
    {
        match self {
            Denial::NoTask => 11,
            Denial::Unfinished => 12,
            Denial::Stranger => 13,
            Denial::NoUse => 14,
            Denial::Held => 15,
            Denial::Reached => 16,
            Denial::NotHeld => 17,
            Denial::Inside => 18,
            Denial::Sleepless => 19,
            Denial::NoSleeper => 20,
            Denial::Unfit => 26,
        }
    }
}
