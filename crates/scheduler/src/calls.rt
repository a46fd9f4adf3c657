// A call as a value.
ghost use Rattle.std.specs.Prelude.{◌≡◌};
ghost use Rattle.scheduler.specs.Calls.{machine_call};
ghost use Rattle.scheduler.specs.Replies.{replied};

use crate::{Number, Reply, Scheduler};

// A call: release by priority, the others by a job's number; lock and unlock name a resource.
#[derive(Clone, Copy, PartialEq, Eq, Debug)]
pub enum Call {
    Release(u8),
    Resume(Number),
    Lock(Number, u8),
    Unlock(Number, u8),
    Suspend(Number),
    Complete(Number),
}

impl Scheduler {
    // Makes a call.
    pub fn call(self, call: Call) -> Reply
        ensures { result ≡ replied self (machine_call call) }
    {
        match call {
            Call::Release(priority) => self.release(priority),
            Call::Resume(job) => self.resume(job),
            Call::Lock(job, resource) => self.lock(job, resource),
            Call::Unlock(job, resource) => self.unlock(job, resource),
            Call::Suspend(job) => self.suspend(job),
            Call::Complete(job) => self.complete(job),
        }
    }
}
