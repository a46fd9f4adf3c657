// What every refusal tells, a number and a place, and a refusal of any number.
ghost use Rattle.std.specs.Prelude.{◌≡◌, ℕ, Some};
ghost use Rattle.table.specs.Replies.{why_number, told_text};

use crate::Refusal;
use std::fmt;

// A refusal: it tells a number and a place.
pub trait Refuses: Copy {
    // its number
    ghost numbered: { Self → ℕ };

    // its place
    ghost placed: { Self → ℕ };

    fn number(self) -> u8
        ensures { result ≡ numbered self };

    fn place(self) -> usize
        ensures { result ≡ placed self };
}

// A refusal by its number, which may be any: as a host keeps it, or had it from elsewhere.
#[derive(Clone, Copy, PartialEq, Eq, Debug)]
pub struct Numbered {
    pub number: u8,
    pub place: usize,
}

impl Refuses for Numbered {
    ghost numbered = { λ r. r.number };

    ghost placed = { λ r. r.place };

    fn number(self) -> u8 {
        self.number
    }

    fn place(self) -> usize {
        self.place
    }
}

impl From<Refusal> for Numbered {
    ghost from_gives = { λ refusal numbered. numbered ≡ record { number = why_number refusal.why; place = refusal.place } };

    fn from(refusal: Refusal) -> Numbered {
        Numbered {
            number: refusal.why.number(),
            place: refusal.place,
        }
    }
}

impl fmt::Display for Numbered {
    ghost output = { λ r. Some (told_text r.number r.place) };

    fn fmt<W: fmt::Write>(&self, f: &mut fmt::Formatter<W>) -> fmt::Result {
        let Numbered { number, place } = *self;
        write!(f, "refused {number} at {place}")
    }
}
