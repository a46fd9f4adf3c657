// What a C program links to count instructions: the loops of `measured`, exported.
#![tactic(auto)]

// Analyses a table so many times, with an allowance that grows by one each time, and answers the checksum of all that was answered.
#[unsafe(no_mangle)]
pub extern "C" fn quasdrom_analyses(bytes: &[u8], allowance: u64, times: u64) -> u64 {
    measured::quasdrom_analyses(bytes, allowance, times)
}

// Sets up on a table, goes through the list of calls so many times, and answers the checksum of all that was answered.
#[unsafe(no_mangle)]
pub extern "C" fn quasdrom_calls(table: &[u8], calls: &[u8], times: u64) -> u64 {
    measured::quasdrom_calls(table, calls, times)
}
