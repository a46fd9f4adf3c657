// The tasks, which no call changes.
ghost use Rattle.std.specs.Prelude.{◌≡◌, ◌<◌, ◌≤◌, ◌&&◌, IfSome, nat_le};
ghost use Rattle.searches.specs.Searches.{first, all};
ghost use Rattle.protocol.specs.Running.{ceiling};
ghost use Rattle.protocol.specs.Fit.{used};
ghost use Rattle.arrays.specs.View.{tasks_of, of_priority, setting_below};
ghost use Rattle.arrays.specs.Places.{place_of};

use crate::Place;
use crate::counts::count_at;

// The tasks by place: priority, system setting, most sleeps X, and N for each of sixteen resources. So many places have one.
#[derive(Clone, Copy)]
pub struct Tasks {
    pub count: usize,
    pub priorities: [u8; 32],
    pub settings: [u8; 32],
    pub most: [u8; 32],
    pub uses: [u8; 512],
}

impl Tasks {
    // The place of the first task with a priority.
    pub fn place_of_priority(&self, priority: u8) -> Option<Place>
        requires { self.now.count ≤ 32 }
        ensures found { place_of result ≡ first (of_priority (tasks_of self.now) priority) self.now.count }
        ensures inside { IfSome result (λ i. i < self.now.count) }
    {
        self.priorities[..self.count]
            .iter()
            .position(|p| *p == priority)
            .map(Place::new)
    }

    // The ceiling of a resource.
    pub fn ceiling(&self, resource: u8) -> u8
        requires { self.now.count ≤ 32 }
        ensures { result ≡ ceiling (tasks_of self.now) resource }
    {
        let mut highest: u8 = 0;
        for i in 0..self.count {
            let priority = self.priorities[i];
            let uses = count_at(&self.uses, Place::new(i), resource);
            let counted = if 0 < uses { priority } else { 0 };
            highest = highest.max(counted);
        }
        highest
    }

    // Whether some task uses a resource.
    pub fn is_used(&self, resource: u8) -> bool
        requires { self.now.count ≤ 32 }
        ensures { result ≡ used (tasks_of self.now) resource }
    {
        // `any` leaves the false side open
        for i in 0..self.count {
            if 0 < count_at(&self.uses, Place::new(i), resource) {
                return true;
            }
        }
        false
    }

    // Whether there are at most 32 tasks, each setting below its priority. All are looked at, so that the loop becomes wide instructions.
    pub fn are_fit(&self) -> bool
        ensures { result ≡ nat_le self.now.count 32 && all (setting_below (tasks_of self.now)) self.now.count }
    {
        if 32 < self.count {
            return false;
        }
        let mut below = true;
        for i in 0..self.count {
            below = below & (self.settings[i] < self.priorities[i]);
        }
        below
    }
}
