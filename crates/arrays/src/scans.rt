// Scans over the entries: who runs, and who sleeps under a number.
ghost use Rattle.std.specs.Prelude.{◌≡◌, ◌<◌, ◌≤◌, IfSome};
ghost use Rattle.searches.specs.Searches.{first, largest};
ghost use Rattle.protocol.specs.Running.{system_priority, in_force, running};
ghost use Rattle.arrays.specs.View.{tasks_of, entries_of, eligible_priority, sleeping};
ghost use Rattle.arrays.specs.Places.{place_of};

use crate::marks::{is_eligible, is_leading};
use crate::{Entries, Number, Place, Status, Tasks};

impl Entries {
    // The largest setting among started, unfinished jobs, else 0. Each setting is read before the test, so that the loop becomes wide instructions.
    fn system_priority(&self, tasks: &Tasks) -> u8
        requires { tasks.now.count ≤ 32 }
        ensures { result ≡ system_priority (tasks_of tasks.now) (entries_of self.now) }
    {
        let mut highest: u8 = 0;
        for i in 0..tasks.count {
            let setting = tasks.settings[i];
            let counts = self.started[i] & Status::of(self.states[i]).is_unfinished();
            let counted = if counts { setting } else { 0 };
            highest = highest.max(counted);
        }
        highest
    }

    // The highest priority of a ready job that is eligible under the system priority, 0 where there is none.
    fn highest_eligible(&self, tasks: &Tasks, system: u8) -> u8
        requires { tasks.now.count ≤ 32 }
        ensures { result ≡ largest (eligible_priority (tasks_of tasks.now) (entries_of self.now) system) tasks.now.count }
    {
        let mut highest: u8 = 0;
        for i in 0..tasks.count {
            let priority = tasks.priorities[i];
            let eligible = is_eligible(Status::of(self.states[i]), self.held[i], system, priority);
            let counted = if eligible { priority } else { 0 };
            highest = highest.max(counted);
        }
        highest
    }

    // The place of the running job: the first of the eligible ready jobs that has the highest priority of these.
    pub fn running(&self, tasks: &Tasks) -> Option<Place>
        requires { tasks.now.count ≤ 32 }
        ensures found { place_of result ≡ running in_force (tasks_of tasks.now) (entries_of self.now) }
        ensures inside { IfSome result (λ i. i < tasks.now.count) }
    {
        let system = self.system_priority(tasks);
        let highest = self.highest_eligible(tasks, system);
        for i in 0..tasks.count {
            let leads = is_leading(
                Status::of(self.states[i]),
                self.held[i],
                system,
                tasks.priorities[i],
                highest,
            );
            if leads {
                return Some(Place::new(i));
            }
        }
        None
    }

    // The place of the first job that sleeps under this number.
    pub fn sleeper(&self, tasks: &Tasks, job: Number) -> Option<Place>
        requires { tasks.now.count ≤ 32 }
        ensures found { place_of result ≡ first (sleeping (tasks_of tasks.now) (entries_of self.now) job.priority job.serial) tasks.now.count }
        ensures inside { IfSome result (λ i. i < tasks.now.count) }
    {
        for i in 0..tasks.count {
            let place = Place::new(i);
            let named = self.has_number(tasks, place, job);
            if self.status(place).is_asleep() & named {
                return Some(place);
            }
        }
        None
    }
}
