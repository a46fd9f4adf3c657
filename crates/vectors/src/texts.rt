// Cases of texts: what show prints of a table, and what pack makes of a text.
ghost use Rattle.std.specs.Prelude.{◌≤◌, IfOk};

use crate::sums::Summed;
use harness::input::{Stop, byte, fill, record};
use std::io;
use std::io::{Read, Write};

// The length that a case says of its text, or 262,145 where it is longer.
fn length(input: &mut impl Read) -> Result<usize, Stop>
    ensures { IfOk result (λ length. length ≤ 262145) }
{
    let length = u32::from_le_bytes(record(input)?);
    Ok(length.min(262145) as usize)
}

// Prints the line of a table's text: length and checksum of what show prints, then of what pack makes of that, a table or the line of a fault.
// What is tried is the program's reply, and the first byte of a table's is 1.
pub fn put_shown(out: &mut impl Write, bytes: &[u8]) -> io::Result<()> {
    let mut text = [0; 262144];
    let length = notation::show(bytes, &mut text);
    let mut reply = [0; 8192];
    let count = notation::pack_reply(&text[..length], &mut reply);
    let word = if reply[0] == 1 { "packed" } else { "fault" };
    let text = Summed(&text[..length]);
    let reply = Summed(&reply[..count]);
    writeln!(out, "text {text} {word} {reply}")
}

// Prints what pack makes of a text: length and checksum of the table, or the line of the fault.
fn put_reply(out: &mut impl Write, text: &[u8]) -> io::Result<()> {
    let mut reply = [0; 8192];
    let count = notation::pack_reply(text, &mut reply);
    if reply[0] == 1 {
        writeln!(out, "packed {}", Summed(&reply[..count]))
    } else {
        out.write_all(&reply[..count])
    }
}

// Reads the rest of a case that packs a text, and prints its line.
pub fn run(input: &mut impl Read, out: &mut impl Write) -> Result<(), Stop> {
    let length = length(input)?;
    let mut text = [0; 262145];
    let text = &mut text[..length];
    fill(input, text)?;
    put_reply(out, text)?;
    Ok(())
}

// Reads the rest of a case that packs one byte many times over, and prints its line.
pub fn run_long(input: &mut impl Read, out: &mut impl Write) -> Result<(), Stop> {
    let length = length(input)?;
    let byte = byte(input)?;
    let mut text = [0; 262145];
    let text = &mut text[..length];
    text.fill(byte);
    put_reply(out, text)?;
    Ok(())
}
