// What higher tasks add to a right side.
ghost use Rattle.std.specs.Prelude.{◌≡◌, ◌+◌, ◌-◌, ◌*◌, ◌≤◌, ◌<◌};
ghost use Rattle.equations.specs.Counting.{ceil};
ghost use Rattle.equations.specs.Seen.{seen};
ghost use Rattle.equations.specs.Equations.{addition, additions};
ghost use Rattle.equations.specs.Ready.{Ready};

use crate::numbers::ceil_div;
use crate::{At, Equations};

// The jobs of a task whose sleep is charged, each with its run time and its sleep.
fn charged(t: u64, run: u64, sleep: u64, period: u32) -> u64
    requires { (t ≤ 1000000) × (run ≤ 1000000) × (sleep ≤ 1000000) × (1 ≤ period) × (period ≤ 1000000) }
    ensures { (result ≡ ceil t period * (run + sleep)) × (result ≤ 2000000000000) }
{
    ceil_div(t, period) * (run + sleep)
}

// The jobs of a task whose jitter is charged, each with its run time.
fn delayed(t: u64, value: u64, run: u64, period: u32) -> u64
    requires { (t ≤ 1000000) × (value ≤ 1000000) × (run ≤ value) × (1 ≤ period) × (period ≤ 1000000) }
    ensures { (result ≡ ceil (t + value - run) period * run) × (result ≤ 2000000000000) }
{
    ceil_div(t + value - run, period) * run
}

impl Equations<'_, '_> {
    // What the higher task j adds.
    fn added(&self, vector: &[u64], at: At, j: usize) -> u64
        requires ready { Ready self.now.table.bytes.now self.now.table.shape vector.now at }
        requires j_lt_task { j < at.task }
        ensures { (result ≡ addition (seen self.now) at.task vector.now at.length j) × (result ≤ 2000000000000) }
    {
        let higher = self.table.task(j);
        let run = u64::from(higher.run);
        // by the total reader: with `self.table.task(at.task).priority` a right side under 16 higher tasks takes 458 instructions in place of 433
        if table::byte_at(self.table.bytes, 20 * at.task + 1) <= self.settings[j] {
            return charged(at.length, run, u64::from(higher.sleep), higher.period);
        }
        delayed(at.length, vector[j], run, higher.period)
    }

    // What all higher tasks add.
    pub(crate) fn additions(&self, vector: &[u64], at: At) -> u64
        requires { Ready self.now.table.bytes.now self.now.table.shape vector.now at }
        ensures { (result ≡ additions (seen self.now) at.task vector.now at.length) × (result ≤ 64000000000000) }
    {
        let mut sum = 0;
        // `map(..).sum()` leaves `sum-requires-clause-fits` and `returns` open
        for j in 0..at.task {
            sum += self.added(vector, at, j);
        }
        sum
    }
}
