// What a task's job is, and the number that stands for it in an array.
ghost use Rattle.std.specs.Prelude.{◌≡◌, not};
ghost use Rattle.protocol.specs.State.{is_none, is_ready, is_asleep};
ghost use Rattle.arrays.specs.View.{status_of, own_number};
ghost use Rattle.arrays.specs.Statuses.{status_seen};

// There is no job, or it is ready, waiting or asleep.
#[derive(Clone, Copy, PartialEq, Eq, Debug)]
pub enum Status {
    NoJob,
    Ready,
    Waiting,
    Asleep,
}

impl Status {
    // A status by its number: a number that is none of 1 to 3 is no job.
    pub fn of(number: u8) -> Status
        ensures { status_seen result ≡ status_of number }
    {
        match number {
            1 => Status::Ready,
            2 => Status::Waiting,
            3 => Status::Asleep,
            _ => Status::NoJob,
        }
    }

    // A status's own number.
    pub fn number(self) -> u8
        ensures { result ≡ own_number (status_seen self) }
    {
        match self {
            Status::NoJob => 0,
            Status::Ready => 1,
            Status::Waiting => 2,
            Status::Asleep => 3,
        }
    }

    // Whether a job is ready.
    pub fn is_ready(self) -> bool
        ensures { result ≡ is_ready (status_seen self) }
    {
        matches!(self, Status::Ready)
    }

    // Whether a job is asleep.
    pub fn is_asleep(self) -> bool
        ensures { result ≡ is_asleep (status_seen self) }
    {
        matches!(self, Status::Asleep)
    }

    // Whether there is a job.
    pub fn is_unfinished(self) -> bool
        ensures { result ≡ not (is_none (status_seen self)) }
    {
        !matches!(self, Status::NoJob)
    }
}
