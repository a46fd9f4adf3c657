// The entries of the tasks, and what is stored into them.
ghost use Rattle.std.specs.Prelude.{◌≡◌, ◌+◌, ◌<◌, ◌≤◌, ◌&&◌, ◌==◌, length};
ghost use Rattle.protocol.specs.Checks.{numbered};
ghost use Rattle.arrays.specs.View.{tasks_of, entries_of, number_of, count_of, no_entries};
ghost use Rattle.arrays.specs.Statuses.{status_seen};
ghost use Rattle.arrays.specs.Places.{place_of};
ghost use Rattle.arrays.specs.Stores.{started_at, Cleared, Counted, Woken};

use crate::marks::woken;
use crate::{Number, Place, Status, Tasks};

// An entry for each task, by its place: the job's state (0 none, 1 ready, 2 waiting, 3 asleep, and any other number none), whether it is started,
// its sleeps, the sections opened of each resource, the resource held, and the serial that the next release takes. States and held resources
// stay numbers, since a host may make up a state with any, and a refusal hands it back as it is.
#[derive(Clone, Copy)]
pub struct Entries {
    pub states: [u8; 32],
    pub started: [bool; 32],
    pub sleeps: [u8; 32],
    pub opened: [u8; 512],
    pub held: [u8; 32],
    pub serials: [u16; 32],
}

impl Entries {
    // No job yet.
    pub fn new() -> Entries
        ensures { result ≡ no_entries }
    {
        Entries {
            states: [0; 32],
            started: [false; 32],
            sleeps: [0; 32],
            opened: [0; 512],
            held: [0; 32],
            serials: [0; 32],
        }
    }

    // The status of the job at a place.
    pub fn status(&self, place: Place) -> Status
        ensures { status_seen result ≡ (entries_of self.now place).status }
    {
        Status::of(self.states[place.index()])
    }

    // The number of the latest job at a place: its serial is the one before the next.
    pub fn number_at(&self, tasks: &Tasks, place: Place) -> Number
        ensures { result ≡ number_of (tasks_of tasks.now) (entries_of self.now) place }
    {
        let at = place.index();
        Number {
            priority: tasks.priorities[at],
            serial: self.serials[at].wrapping_sub(1),
        }
    }

    // Whether the latest job at a place has this number.
    pub fn has_number(&self, tasks: &Tasks, place: Place, job: Number) -> bool
        ensures { result ≡ numbered (tasks_of tasks.now) (entries_of self.now) job.priority job.serial place }
    {
        let latest = self.number_at(tasks, place);
        (latest.priority == job.priority) & (latest.serial == job.serial)
    }

    // The job at a place, if any, is started.
    pub fn start(&mut self, place: Option<Place>)
        ensures { self.new ≡ record self.old { started = started_at self.old.started (place_of place) } }
    {
        if let Some(place) = place {
            self.started[place.index()] = true;
        }
    }

    // The counts of the task at a place begin afresh.
    pub fn clear(&mut self, place: Place)
        ensures rest { self.new ≡ record self.old { opened = self.new.opened } }
        ensures cleared { Cleared self.old.opened place self.new.opened }
    {
        let first = place.index() * 16;
        self.opened[first..first + 16].fill(0);
    }

    // The task at a place has one more for a resource.
    pub fn count_one_more(&mut self, place: Place, resource: u8)
        requires resource { (0 < resource) × (resource ≤ 16) }
        requires room { count_of self.old.opened place resource < 255 }
        ensures rest { self.new ≡ record self.old { opened = self.new.opened } }
        ensures counted { Counted self.old.opened place resource self.new.opened }
    {
        self.opened[place.index() * 16 + usize::from(resource) - 1] += 1;
    }

    // Every task's waiting job above the ceiling is ready.
    pub fn wake(&mut self, tasks: &Tasks, ceiling: u8)
        requires { tasks.now.count ≤ 32 }
        ensures rest { self.new ≡ record self.old { states = self.new.states } }
        ensures woken { Woken self.old.states tasks.now.priorities ceiling tasks.now.count self.new.states }
    {
        for i in 0..tasks.count {
            self.states[i] = woken(self.states[i], ceiling, tasks.priorities[i]);
        }
    }
}
