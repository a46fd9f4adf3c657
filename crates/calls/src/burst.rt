// Cases that release and complete a task's job many times.
use crate::replies::{named, with_reply};
use harness::input::{Stop, byte, record};
use harness::sums::Checksum;
use scheduler::Scheduler;
use std::io::{Read, Write};

// A burst so far: the scheduler, and the checksum of the answers.
#[derive(Clone, Copy)]
struct Burst {
    scheduler: Scheduler,
    sum: Checksum,
}

impl Burst {
    // With one job more: released, and completed under the number that then runs.
    fn once(self, priority: u8) -> Burst {
        let released = self.scheduler.release(priority);
        let sum = with_reply(self.sum, &released);
        let completed = released.state.complete(named(&released));
        Burst {
            scheduler: completed.state,
            sum: with_reply(sum, &completed),
        }
    }
}

// Reads the rest of such a case, prints its line and answers the next scheduler.
pub fn run(
    input: &mut impl Read,
    out: &mut impl Write,
    scheduler: Scheduler,
) -> Result<Scheduler, Stop> {
    let priority = byte(input)?;
    let count = u32::from_le_bytes(record(input)?);
    let sum = Checksum::start();
    let burst = (0..count).fold(Burst { scheduler, sum }, |burst, _| burst.once(priority));
    writeln!(out, "burst {}", burst.sum)?;
    Ok(burst.scheduler)
}
