// Quotients that are rounded up, in 32 bits: to divide in 64 takes longer.
ghost use Rattle.std.specs.Prelude.{◌≡◌, ◌≤◌};
ghost use Rattle.equations.specs.Counting.{ceil};

// A quotient rounded up, of numbers that fit 32 bits.
#[tactic(auto, using(crate::proofs::Counting::ceil_is))]
pub fn ceil_div(a: u64, b: u32) -> u64
    requires { (a ≤ 4000000) × (1 ≤ b) × (b ≤ 1000000) }
    ensures { result ≡ ceil a b }
{
    u64::from((a as u32).div_ceil(b))
}
