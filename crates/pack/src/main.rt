// The pack program: a table's text on standard input, its bytes or the line of its first fault on standard output.
#![tactic(auto)]

use harness::input::read_full;
use std::io;

// Reads at most 262,145 bytes, which decide any text, and prints the table's bytes, or the first line at fault.
fn main(rt: HostRuntime) -> io::Result<()> {
    let mut text = [0u8; 262145];
    let length = read_full(&mut rt.stdin(), &mut text)?;
    let mut reply = [0u8; 8192];
    let count = notation::pack_reply(&text[..length], &mut reply);
    rt.write_all(&reply[..count])
}
