// The show program: a table on standard input, its text on standard output.
#![tactic(auto)]

use harness::input::read_full;
use std::io;

// Reads at most 8,192 bytes, which decide any input, and prints the table as text, or its refusal.
fn main(rt: HostRuntime) -> io::Result<()> {
    let mut table = [0u8; 8192];
    let length = read_full(&mut rt.stdin(), &mut table)?;
    let mut text = [0u8; 262144];
    let count = notation::show(&table[..length], &mut text);
    rt.write_all(&text[..count])
}
