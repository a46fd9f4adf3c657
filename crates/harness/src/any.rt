// Checksums of any value so far.
ghost use Rattle.std.specs.Prelude.{◌≡◌, ℕ};
ghost use Rattle.harness.specs.Sums.{after_number, after_numbers};

use std::fmt;

// A checksum that may go on from any value, such as one that a host read from a file: each number x makes it (it * 257 + x) % 1000003.
#[derive(Clone, Copy)]
pub struct AnyChecksum {
    pub value: u64,
}

impl AnyChecksum {
    // That of no number.
    pub fn start() -> AnyChecksum
        ensures { result.value ≡ 0 }
    {
        AnyChecksum { value: 0 }
    }

    // That after one number more.
    pub fn with<N: Into<u64>>(self, number: N) -> AnyChecksum
        ensures { (x : ℕ) × N.converts number x × (result.value ≡ after_number self.value x) }
    {
        // both are reduced first, so that the product and the sum fit whatever they are
        let number = number.into() % 1000003;
        AnyChecksum {
            value: (self.value % 1000003 * 257 + number) % 1000003,
        }
    }

    // That after the numbers of some bytes.
    pub fn with_bytes(self, bytes: &[u8]) -> AnyChecksum
        ensures { result.value ≡ after_numbers self.value bytes.now }
    {
        bytes.iter().fold(self, |sum, byte| sum.with(*byte))
    }
}

impl fmt::Display for AnyChecksum {
    ghost use Rattle.std.specs.Prelude.{Some};
    ghost use Rattle.std.specs.Fmt.{decimal};

    ghost output = { λ sum. Some (decimal sum.value) };

    fn fmt<W: fmt::Write>(&self, f: &mut fmt::Formatter<W>) -> fmt::Result {
        write!(f, "{}", self.value)
    }
}
