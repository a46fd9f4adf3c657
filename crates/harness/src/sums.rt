// Checksums.
ghost use Rattle.std.specs.Prelude.{◌≡◌, ℕ, ◌<◌};
ghost use Rattle.harness.specs.Sums.{after_number, after_numbers};

pub use crate::any::AnyChecksum;
use std::fmt;

// A checksum: it starts at 0, and each number x makes it (it * 257 + x) % 1000003. So it is always below 1,000,003.
#[derive(Clone, Copy)]
pub struct Checksum {
    pub value: u64,
    pub ghost reduced: { value < 1000003 },
}

impl Checksum {
    // That of no number.
    pub fn start() -> Checksum
        ensures { result.value ≡ 0 }
    {
        let start = AnyChecksum::start();
        Checksum { value: start.value }
    }

    // That after one number more.
    pub fn with<N: Into<u64>>(self, number: N) -> Checksum
        ensures { (x : ℕ) × N.converts number x × (result.value ≡ after_number self.value x) }
    {
        let sum = AnyChecksum { value: self.value }.with(number);
        Checksum { value: sum.value }
    }

    // That after the numbers of some bytes.
    #[tactic(auto, using(crate::proofs::Reduced::numbers_reduced))]
    pub fn with_bytes(self, bytes: &[u8]) -> Checksum
        ensures { result.value ≡ after_numbers self.value bytes.now }
    {
        let sum = AnyChecksum { value: self.value }.with_bytes(bytes);
        Checksum { value: sum.value }
    }
}

impl fmt::Display for Checksum {
    ghost use Rattle.std.specs.Prelude.{Some};
    ghost use Rattle.std.specs.Fmt.{decimal};

    ghost output = { λ sum. Some (decimal sum.value) };

    fn fmt<W: fmt::Write>(&self, f: &mut fmt::Formatter<W>) -> fmt::Result {
        write!(f, "{}", self.value)
    }
}

#[cfg(test)]
mod tests {
    use super::*;
    use std::test::Fail;

    // What is known of any checksum by its type alone.
    fn below(sum: Checksum) -> u64
        ensures { result < 1000003 }
    {
        sum.value
    }

    #[test]
    fn after_numbers_and_bytes(rt: HostRuntime) -> Result<(), Fail> {
        let sum = Checksum::start().with(7u8).with(300u16);
        assert_eq!(rt; below(sum), 2099);
        assert_eq!(rt; sum.with_bytes(b"bean").value, 102397);
        assert_eq!(rt; sum.to_string(rt.alloc())?.as_str(), "2099");
        Ok(())
    }

    #[test]
    fn after_any_number(rt: HostRuntime) -> Result<(), Fail> {
        let sum = AnyChecksum { value: 5_000_000 };
        assert_eq!(rt; sum.with(9u32).value, 996157);
        assert_eq!(rt; sum.with_bytes(b"pea").value, 805391);
        assert_eq!(rt; sum.with_bytes(b"").value, 5_000_000);
        assert_eq!(rt; AnyChecksum::start().value, 0);
        assert_eq!(rt; sum.to_string(rt.alloc())?.as_str(), "5000000");
        Ok(())
    }
}
