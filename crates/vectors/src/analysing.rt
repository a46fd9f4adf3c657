// Cases that analyse a table: what is printed are the lines of the bounds program, and a line of the table's text.
use crate::texts::put_shown;
use harness::input::{Stop, part, record};
use std::io::{Read, Write};

// Reads the rest of such a case and prints its lines.
pub fn run(input: &mut impl Read, out: &mut impl Write) -> Result<(), Stop> {
    let allowance = u64::from_le_bytes(record(input)?);
    let mut bytes = [0; 65535];
    let table = part(input, &mut bytes)?;
    let mut text = [0; 4096];
    let count = lines::bounds_lines(table, allowance, &mut text);
    out.write_all(&text[..count])?;
    put_shown(out, table)?;
    Ok(())
}
