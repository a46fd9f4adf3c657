// Cases that write a held table.
use harness::input::{Stop, byte, fill, record};
use harness::sums::Checksum;
use held::Table;
use std::array::from_fn;
use std::io;
use std::io::{Read, Write};

// Reads so many bytes of images into a buffer, whose first byte stays: the place of a kind. Where they don't fit, the cases are over.
fn read_images(input: &mut impl Read, images: &mut [u8], length: usize) -> Result<(), Stop> {
    let part = images.get_mut(1..=length).ok_or(Stop::Over)?;
    fill(input, part)
}

// Writes a table to a buffer with so much room and prints the line of that.
fn put_line(out: &mut impl Write, table: Table, room: u16) -> io::Result<()> {
    let mut buffer = [170; 65535];
    let buffer = &mut buffer[..usize::from(room)];
    match held::write(table, buffer) {
        Ok(length) => write!(out, "written {length}")?,
        Err(refusal) => write!(out, "{refusal}")?,
    }
    writeln!(out, " buffer {}", Checksum::start().with_bytes(buffer))
}

// Reads the rest of such a case and prints its line. Where it has more images than a table has entries, the cases are over.
pub fn run(input: &mut impl Read, out: &mut impl Write) -> Result<(), Stop> {
    let task_count = usize::from_le_bytes(record(input)?);
    let use_count = usize::from_le_bytes(record(input)?);
    let room = u16::from_le_bytes(record(input)?);
    let mut tasks = [0; 609];
    let count = usize::from(byte(input)?);
    read_images(input, &mut tasks, 19 * count)?;
    let mut uses = [0; 3585];
    let count = usize::from(u16::from_le_bytes(record(input)?));
    read_images(input, &mut uses, 7 * count)?;
    let table = Table {
        tasks: from_fn(|i| table::task_at(&tasks, 19 * i)),
        task_count,
        uses: from_fn(|i| table::use_at(&uses, 7 * i)),
        use_count,
    };
    put_line(out, table, room)?;
    Ok(())
}
