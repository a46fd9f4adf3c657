// The open sections, in order of opening.
ghost use Rattle.std.specs.Prelude.{◌≡◌, ◌-◌, ◌<◌, ◌≤◌, ◌&&◌, IfSome, nat_le, nat_lt};
ghost use Rattle.searches.specs.Searches.{first, only};
ghost use Rattle.protocol.specs.Fit.{named};
ghost use Rattle.arrays.specs.View.{tasks_of, sections_of, no_sections, last_open, is_section};
ghost use Rattle.arrays.specs.Places.{place_of};
ghost use Rattle.arrays.specs.Stores.{Removed};

use crate::Tasks;

// The open sections by slot: the place of the holder and the resource. So many slots have one.
#[derive(Clone, Copy)]
pub struct Sections {
    pub count: usize,
    pub places: [u8; 16],
    pub resources: [u8; 16],
}

impl Sections {
    // None is open.
    pub fn new() -> Sections
        ensures { result ≡ no_sections }
    {
        Sections {
            count: 0,
            places: [0; 16],
            resources: [0; 16],
        }
    }

    // The resource of the last opened section still open.
    pub fn last_open(&self) -> Option<u8>
        requires { self.now.count ≤ 16 }
        ensures { result ≡ last_open self.now.resources self.now.count }
    {
        self.resources[..self.count].last().copied()
    }

    // The slot of the first open section of a place and a resource.
    pub fn slot_of(&self, place: usize, resource: u8) -> Option<usize>
        requires { self.now.count ≤ 16 }
        ensures found { place_of result ≡ first (is_section self.now.places self.now.resources place resource) self.now.count }
        ensures inside { IfSome result (λ k. k < self.now.count) }
    {
        for k in 0..self.count {
            let holder = usize::from(self.places[k]);
            if (place == holder) & (resource == self.resources[k]) {
                return Some(k);
            }
        }
        None
    }

    // The section in a slot is closed: the later ones move down by one, and the last slot is 0. A slot past the sections changes nothing.
    pub fn remove(&mut self, slot: usize)
        requires { self.old.count ≤ 16 }
        ensures count { self.new.count ≡ self.old.count - only (nat_lt slot self.old.count) 1 }
        ensures places { Removed self.old.places slot self.old.count self.new.places }
        ensures resources { Removed self.old.resources slot self.old.count self.new.resources }
    {
        if self.count <= slot {
            return;
        }
        self.places.copy_within(slot + 1..self.count, slot);
        self.resources.copy_within(slot + 1..self.count, slot);
        self.count -= 1;
        self.places[self.count] = 0;
        self.resources[self.count] = 0;
    }

    // Whether at most 16 are open, each naming the place of one of at most 32 tasks and a resource that some task uses.
    pub fn are_fit(&self, tasks: &Tasks) -> bool
        ensures { result ≡ nat_le tasks.now.count 32 && (nat_le self.now.count 16 && named (tasks_of tasks.now) (sections_of self.now)) }
    {
        if 32 < tasks.count {
            return false;
        }
        if 16 < self.count {
            return false;
        }
        for k in 0..self.count {
            let place = usize::from(self.places[k]);
            let test = (place < tasks.count) & tasks.is_used(self.resources[k]);
            if !test {
                return false;
            }
        }
        true
    }
}
