// Lists of calls. A record has five bytes: kind, priority, the serial's low and high byte, resource. Kinds 16 to 21 are release, resume, lock,
// unlock, suspend and complete; a record of any other kind is no call.
use crate::sums::Checksum;
use scheduler::{Call, Number, Scheduler};
use table::byte_at;

// What going through a list leaves: the scheduler, and the checksum.
#[derive(Clone, Copy)]
pub struct Passed {
    pub scheduler: Scheduler,
    pub sum: Checksum,
}

// The job that a record names. Its serial is one more in each pass, as each pass releases a task's job once.
fn job_of(record: &[u8], pass: u16) -> Number {
    let first = u16::from_le_bytes([byte_at(record, 2), byte_at(record, 3)]);
    Number {
        priority: byte_at(record, 1),
        serial: first.wrapping_add(pass),
    }
}

// The call of a record, if it is one.
fn call_of(record: &[u8], pass: u16) -> Option<Call> {
    let job = job_of(record, pass);
    let resource = byte_at(record, 4);
    match byte_at(record, 0) {
        16 => Some(Call::Release(job.priority)),
        17 => Some(Call::Resume(job)),
        18 => Some(Call::Lock(job, resource)),
        19 => Some(Call::Unlock(job, resource)),
        20 => Some(Call::Suspend(job)),
        21 => Some(Call::Complete(job)),
        _ => None,
    }
}

impl Passed {
    // Goes through a list once more. Of a record that is cut off the bytes past the end are zeros.
    pub fn through(mut self, calls: &[u8], pass: u16) -> Passed {
        for record in calls.chunks(5) {
            if let Some(call) = call_of(record, pass) {
                let reply = self.scheduler.call(call);
                self.sum = self.sum.with_reply(reply.refusal, reply.running);
                self.scheduler = reply.state;
            }
        }
        self
    }
}
