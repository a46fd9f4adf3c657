// The sums of the largest in a section bag, found from the uses that are kept and their repeat counts: no bag is made.
ghost use Rattle.std.specs.Prelude.{◌≡◌, ◌≤◌};
ghost use Rattle.equations.specs.Picking.{tallied, times_of, sums_of, Picking, Small, Timed};

use crate::numbers::ceil_div;
use crate::packed::Word;
use crate::{Equations, KeptUses};

// The sections of one use in a bag: their length, and how many there are.
#[derive(Clone, Copy)]
pub struct Pick {
    pub length: u64,
    pub times: u64,
}

// What is taken of a bag so far: how many sections, none shorter than any that is left, and how far they go into Σ(X) and Σ(X + 1).
#[derive(Clone, Copy)]
pub struct Tally {
    pub taken: u64,
    pub less: u64,
    pub more: u64,
}

// Σ(X) and Σ(X + 1).
#[derive(Clone, Copy)]
pub struct Sums {
    pub less: u64,
    pub more: u64,
}

impl Tally {
    // A pick taken, as far as X and X + 1 go.
    fn take(self, x: u64, pick: Pick) -> Tally
        requires { Small self x pick }
        ensures { result ≡ tallied x self pick }
    {
        let after = self.taken + pick.times;
        Tally {
            taken: after,
            less: self.less + (x.min(after) - self.taken) * pick.length,
            more: self.more + ((x + 1).min(after) - self.taken) * pick.length,
        }
    }

    // The sums without the count.
    fn sums(self) -> Sums
        ensures { result ≡ record { less = self.less; more = self.more } }
    {
        Sums {
            less: self.less,
            more: self.more,
        }
    }
}

impl Equations<'_, '_> {
    // How often the bag has a kept use: its N times the jobs of its task.
    fn times_of(&self, vector: &[u64], t: u64, word: Word) -> u64
        requires { Timed self.now.table.bytes.now vector.now self.now.table.shape.tasks t word }
        ensures { (result ≡ times_of self.now.table.bytes.now vector.now t word) × (result ≤ 510000000) }
    {
        let place = word.place();
        let task = self.table.task(place);
        word.times() * ceil_div(t + vector[place], task.period)
    }

    // Σ(x) and Σ(x + 1) of the bag, from one walk over the kept uses, until x + 1 sections are taken.
    pub(crate) fn two_sums(&self, vector: &[u64], kept: &KeptUses, sleeps: u8, t: u64) -> Sums
        requires { Picking self.now.table.bytes.now vector.now kept.now.words self.now.table.shape.tasks kept.now.count sleeps t }
        ensures { result ≡ sums_of self.now.table.bytes.now vector.now kept.now.words kept.now.count sleeps t }
    {
        let x = u64::from(sleeps);
        let mut tally = Tally {
            taken: 0,
            less: 0,
            more: 0,
        };
        for word in &kept.words[..kept.count] {
            if x < tally.taken {
                break;
            }
            let pick = Pick {
                length: word.length(),
                times: self.times_of(vector, t, *word),
            };
            tally = tally.take(x, pick);
        }
        tally.sums()
    }
}
