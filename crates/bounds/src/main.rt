// The bounds program: a table on standard input, its lines on standard output.
#![tactic(auto)]

use harness::input::read_full;
use std::io;

// The allowance of evaluations.
const ALLOWANCE: u64 = 100000;

// Reads at most 8,192 bytes, which decide any input, and prints what is known of them.
fn main(rt: HostRuntime) -> io::Result<()> {
    let mut table = [0u8; 8192];
    let length = read_full(&mut rt.stdin(), &mut table)?;
    let mut text = [0u8; 4096];
    let count = lines::bounds_lines(&table[..length], ALLOWANCE, &mut text);
    rt.write_all(&text[..count])
}
