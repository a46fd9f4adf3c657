// The calls that open and close a section.
ghost use Rattle.std.specs.Prelude.{◌≡◌, ◌<◌, ◌≤◌};
ghost use Rattle.protocol.specs.Checks.{Call};
ghost use Rattle.protocol.specs.Acting.{section, has, closed};
ghost use Rattle.arrays.specs.View.{sections_of};
ghost use Rattle.scheduler.specs.View.{table_of, state_of};
ghost use Rattle.scheduler.specs.Replies.{replied};
ghost use Rattle.scheduler.specs.Beside.{Beside};

use crate::{Number, Reply, Scheduler};

impl Scheduler {
    // The section of a place and a resource, where it is open, is closed, and then every waiting job above the ceiling that is left is ready.
    fn close(&mut self, place: usize, resource: u8)
        requires { (self.old.tasks.count ≤ 32) × (self.old.sections.count ≤ 16) }
        ensures closed { state_of self.new ≡ closed (has (section place resource) (sections_of self.old.sections)) (table_of self.old) (section place resource) (state_of self.old) }
        ensures beside { Beside self.old self.new }
    {
        let Some(slot) = self.sections.slot_of(place, resource) else {
            return;
        };
        self.sections.remove(slot);
        let ceiling = self.ceiling();
        self.entries.wake(&self.tasks, ceiling);
    }

    // The running job opens a section of a resource.
    pub fn lock(mut self, job: Number, resource: u8) -> Reply
        ensures { result ≡ replied self (Call.lock job.priority job.serial resource) }
    {
        let place = match self.lock_ruling(job, resource) {
            Ok(place) => place,
            Err(denial) => return self.refused(denial),
        };
        let at = place.index();
        self.entries.held[at] = resource;
        self.entries.count_one_more(place, resource);
        self.sections.places[self.sections.count] = at as u8;
        self.sections.resources[self.sections.count] = resource;
        self.sections.count += 1;
        self.settled()
    }

    // The running job closes its section, and then every waiting job above the new ceiling is ready. Where no such section is open it only frees
    // the entry.
    pub fn unlock(mut self, job: Number, resource: u8) -> Reply
        ensures { result ≡ replied self (Call.unlock job.priority job.serial resource) }
    {
        let at = match self.unlock_ruling(job, resource) {
            Ok(place) => place.index(),
            Err(denial) => return self.refused(denial),
        };
        self.entries.held[at] = 0;
        self.close(at, resource);
        self.settled()
    }
}
