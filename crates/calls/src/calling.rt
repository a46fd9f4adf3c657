// Cases that make one call.
use crate::replies::put_reply;
use harness::input::{Stop, byte, record};
use scheduler::{Call, Number, Scheduler};
use std::io::{Read, Write};

// The number of a job by its three bytes.
fn job(bytes: [u8; 3]) -> Number {
    let [priority, low, high] = bytes;
    Number {
        priority,
        serial: u16::from_le_bytes([low, high]),
    }
}

// Reads the number of a job and a resource, at once.
fn job_and_resource(input: &mut impl Read) -> Result<(Number, u8), Stop> {
    let [priority, low, high, resource]: [u8; 4] = record(input)?;
    Ok((job([priority, low, high]), resource))
}

// Reads the rest of the call of a letter. Where it is no call's letter, the cases are over.
fn call(input: &mut impl Read, letter: u8) -> Result<Call, Stop> {
    match letter {
        b'r' => Ok(Call::Release(byte(input)?)),
        b'w' => Ok(Call::Resume(job(record(input)?))),
        b'l' => {
            let (job, resource) = job_and_resource(input)?;
            Ok(Call::Lock(job, resource))
        }
        b'u' => {
            let (job, resource) = job_and_resource(input)?;
            Ok(Call::Unlock(job, resource))
        }
        b's' => Ok(Call::Suspend(job(record(input)?))),
        b'c' => Ok(Call::Complete(job(record(input)?))),
        _ => Err(Stop::Over),
    }
}

// Reads the rest of such a case, prints its line and answers the next scheduler.
pub fn run(
    input: &mut impl Read,
    out: &mut impl Write,
    scheduler: Scheduler,
    letter: u8,
) -> Result<Scheduler, Stop> {
    let reply = scheduler.call(call(input, letter)?);
    put_reply(out, &reply)?;
    Ok(reply.state)
}
