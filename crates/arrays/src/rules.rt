// What is checked of the job at a place, if one was found, before a call is accepted: the place again, or why the call is refused.
ghost use Rattle.std.specs.Prelude.{◌≡◌, ◌<◌, ◌≤◌, Some, IfOk, nat_lt, slice_index};
ghost use Rattle.protocol.specs.Checks.{found, releasing, locking, unlocking, suspending, completing};
ghost use Rattle.arrays.specs.View.{tasks_of, entries_of};
ghost use Rattle.arrays.specs.Places.{place_of};
ghost use Rattle.arrays.specs.Rulings.{ruling_of, Roomy};

use crate::counts::count_at;
use crate::{Denial, Entries, Place, Tasks};

impl Entries {
    // A release: a task was found, and its job must be over.
    pub fn release_rule(&self, place: Option<Place>) -> Result<Place, Denial>
        ensures { ruling_of result ≡ found 11 (place_of place) (releasing (entries_of self.now)) }
    {
        let place = place.ok_or(Denial::NoTask)?;
        if self.status(place).is_unfinished() {
            return Err(Denial::Unfinished);
        }
        Ok(place)
    }

    // A lock, where so many sections are open: the caller was found, a use of the resource, no section held and room for one more, N not reached.
    pub fn lock_rule(
        &self,
        tasks: &Tasks,
        sections: usize,
        place: Option<Place>,
        resource: u8,
    ) -> Result<Place, Denial>
        ensures rule { ruling_of result ≡ found 13 (place_of place) (locking (tasks_of tasks.now) (entries_of self.now) (nat_lt sections 16) resource) }
        ensures room { IfOk result (λ i. (place ≡ Some i) × Roomy self.now sections resource i) }
    {
        let place = place.ok_or(Denial::Stranger)?;
        let most = count_at(&tasks.uses, place, resource);
        if most < 1 {
            return Err(Denial::NoUse);
        }
        if 0 < self.held[place.index()] {
            return Err(Denial::Held);
        }
        if 16 <= sections {
            return Err(Denial::Held);
        }
        if most <= count_at(&self.opened, place, resource) {
            return Err(Denial::Reached);
        }
        Ok(place)
    }

    // An unlock: the caller was found, and holds the resource.
    pub fn unlock_rule(&self, place: Option<Place>, resource: u8) -> Result<Place, Denial>
        ensures { ruling_of result ≡ found 13 (place_of place) (unlocking (entries_of self.now) resource) }
    {
        let place = place.ok_or(Denial::Stranger)?;
        let holds = self.held[place.index()];
        if holds < 1 {
            return Err(Denial::NotHeld);
        }
        if holds != resource {
            return Err(Denial::NotHeld);
        }
        Ok(place)
    }

    // A suspend: the caller was found, no section held, X not reached.
    pub fn suspend_rule(&self, tasks: &Tasks, place: Option<Place>) -> Result<Place, Denial>
        ensures rule { ruling_of result ≡ found 13 (place_of place) (suspending (tasks_of tasks.now) (entries_of self.now)) }
        ensures room { IfOk result (λ i. slice_index self.now.sleeps i < 255) }
    {
        let place = place.ok_or(Denial::Stranger)?;
        if 0 < self.held[place.index()] {
            return Err(Denial::Inside);
        }
        if tasks.most[place.index()] <= self.sleeps[place.index()] {
            return Err(Denial::Sleepless);
        }
        Ok(place)
    }

    // A complete: the caller was found, no section held.
    pub fn complete_rule(&self, place: Option<Place>) -> Result<Place, Denial>
        ensures { ruling_of result ≡ found 13 (place_of place) (completing (entries_of self.now)) }
    {
        let place = place.ok_or(Denial::Stranger)?;
        if 0 < self.held[place.index()] {
            return Err(Denial::Inside);
        }
        Ok(place)
    }
}
