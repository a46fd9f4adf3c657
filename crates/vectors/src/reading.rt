// Cases that read a table.
use crate::sums::{Summed, of_table};
use crate::texts::put_shown;
use harness::input::{Stop, byte, part};
use std::io;
use std::io::{Read, Write};

// Prints the line of a table and a priority.
fn put_line(out: &mut impl Write, bytes: &[u8], priority: u8) -> io::Result<()> {
    let loaded = held::load(bytes);
    match loaded.reading {
        Ok(shape) => write!(
            out,
            "accepted {} {} {}",
            shape.tasks, shape.uses_at, shape.uses
        )?,
        Err(refusal) => write!(out, "{refusal}")?,
    }
    let held = of_table(&loaded.table);
    let record = Summed(table::record_of(bytes, priority));
    writeln!(out, " held {held} record {record}")
}

// Reads the rest of such a case and prints its lines.
pub fn run(input: &mut impl Read, out: &mut impl Write) -> Result<(), Stop> {
    let priority = byte(input)?;
    let mut bytes = [0; 65535];
    let table = part(input, &mut bytes)?;
    put_line(out, table, priority)?;
    put_shown(out, table)?;
    Ok(())
}
