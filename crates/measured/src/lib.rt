// What is counted in instructions: many analyses of a table, or a list of calls gone through many times, in one call.
#![tactic(auto)]

mod calling;
mod sums;

use calling::Passed;
use sums::Checksum;

// Analyses a table so many times, with an allowance that grows by one each time, and answers the checksum of all that was answered.
pub fn quasdrom_analyses(bytes: &[u8], allowance: u64, times: u64) -> u64 {
    let mut sum = Checksum::default();
    for i in 0..times {
        sum = sum.with_analysis(analysis::analyse(bytes, allowance.wrapping_add(i)));
    }
    sum.value
}

// Sets up on a table, goes through the list of calls so many times, and answers the checksum of all that was answered.
pub fn quasdrom_calls(table: &[u8], calls: &[u8], times: u64) -> u64 {
    let ready = scheduler::set_up(table);
    let mut passed = Passed {
        scheduler: ready.scheduler,
        sum: Checksum::default().with_refusal(ready.refusal),
    };
    for pass in 0..times {
        passed = passed.through(calls, (pass % 65536) as u16);
    }
    passed.sum.value
}
