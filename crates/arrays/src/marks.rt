// Tests of one job, by its status, the resource that it holds and its priority.
ghost use Rattle.std.specs.Prelude.{◌≡◌, ◌&&◌, ◌==◌, nat_lt};
ghost use Rattle.protocol.specs.Acting.{admitted_by};
ghost use Rattle.arrays.specs.View.{eligible_by};
ghost use Rattle.arrays.specs.Stores.{woken_number};
ghost use Rattle.arrays.specs.Statuses.{status_seen};

use crate::Status;

// Whether a job is ready and eligible: it is above the system priority, or holds a section.
pub fn is_eligible(status: Status, held: u8, system: u8, priority: u8) -> bool
    ensures { result ≡ eligible_by (status_seen status) held system priority }
{
    status.is_ready() & ((system < priority) | (held != 0))
}

// Whether a job is ready and eligible, and has the highest priority. That is tried first, as few have it.
pub fn is_leading(status: Status, held: u8, system: u8, priority: u8, highest: u8) -> bool
    ensures { result ≡ eligible_by (status_seen status) held system priority && (priority == highest) }
{
    priority == highest && is_eligible(status, held, system, priority)
}

// Ready for a job above the ceiling, else waiting.
pub fn admitted(ceiling: u8, priority: u8) -> Status
    ensures { status_seen result ≡ admitted_by (nat_lt ceiling priority) }
{
    if ceiling < priority {
        Status::Ready
    } else {
        Status::Waiting
    }
}

// The number of a state once a section is closed: a waiting job above the ceiling is ready, and any other number stays as it is.
pub fn woken(state: u8, ceiling: u8, priority: u8) -> u8
    ensures { result ≡ woken_number ceiling priority state }
{
    if matches!(Status::of(state), Status::Waiting) & (ceiling < priority) {
        Status::Ready.number()
    } else {
        state
    }
}
