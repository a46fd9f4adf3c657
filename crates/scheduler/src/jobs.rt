// The calls that begin, wake, put to sleep and end a job.
ghost use Rattle.std.specs.Prelude.{◌≡◌, ◌≤◌};
ghost use Rattle.protocol.specs.Checks.{Call};
ghost use Rattle.protocol.specs.Running.{system_ceiling};
ghost use Rattle.protocol.specs.Acting.{admitted};
ghost use Rattle.arrays.specs.Statuses.{status_seen};
ghost use Rattle.scheduler.specs.View.{table_of, state_of};
ghost use Rattle.scheduler.specs.Replies.{replied};

use crate::{Number, Reply, Scheduler};
use arrays::{Place, Status, admitted};

impl Scheduler {
    // The system ceiling: that of the last opened section still open, else 0.
    pub(crate) fn ceiling(&self) -> u8
        requires { (self.now.tasks.count ≤ 32) × (self.now.sections.count ≤ 16) }
        ensures { result ≡ system_ceiling (table_of self.now) (state_of self.now) }
    {
        match self.sections.last_open() {
            Some(resource) => self.tasks.ceiling(resource),
            None => 0,
        }
    }

    // The status of a job that is released or wakes: ready if its priority is above the system ceiling, else waiting.
    fn admission(&self, place: Place) -> Status
        requires { (self.now.tasks.count ≤ 32) × (self.now.sections.count ≤ 16) }
        ensures { status_seen result ≡ admitted (table_of self.now) (system_ceiling (table_of self.now) (state_of self.now)) place }
    {
        admitted(self.ceiling(), self.tasks.priorities[place.index()])
    }

    // A job begins: ready if its priority is above the system ceiling, else waiting.
    pub fn release(mut self, priority: u8) -> Reply
        ensures { result ≡ replied self (Call.release priority) }
    {
        let place = match self.release_ruling(priority) {
            Ok(place) => place,
            Err(denial) => return self.refused(denial),
        };
        let at = place.index();
        self.entries.states[at] = self.admission(place).number();
        self.entries.started[at] = false;
        self.entries.sleeps[at] = 0;
        self.entries.serials[at] = self.entries.serials[at].wrapping_add(1);
        self.entries.clear(place);
        self.settled()
    }

    // A sleeping job wakes: ready if its priority is above the system ceiling, else waiting.
    pub fn resume(mut self, job: Number) -> Reply
        ensures { result ≡ replied self (Call.resume job.priority job.serial) }
    {
        let place = match self.resume_ruling(job) {
            Ok(place) => place,
            Err(denial) => return self.refused(denial),
        };
        let at = place.index();
        self.entries.states[at] = self.admission(place).number();
        self.settled()
    }

    // The running job falls asleep.
    pub fn suspend(mut self, job: Number) -> Reply
        ensures { result ≡ replied self (Call.suspend job.priority job.serial) }
    {
        let at = match self.suspend_ruling(job) {
            Ok(place) => place.index(),
            Err(denial) => return self.refused(denial),
        };
        self.entries.states[at] = Status::Asleep.number();
        self.entries.sleeps[at] += 1;
        self.settled()
    }

    // The running job ends: no job.
    pub fn complete(mut self, job: Number) -> Reply
        ensures { result ≡ replied self (Call.complete job.priority job.serial) }
    {
        let at = match self.complete_ruling(job) {
            Ok(place) => place.index(),
            Err(denial) => return self.refused(denial),
        };
        self.entries.states[at] = Status::NoJob.number();
        self.settled()
    }
}
