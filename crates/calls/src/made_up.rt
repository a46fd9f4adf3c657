// Cases that make a scheduler up.
ghost use Rattle.std.specs.Prelude.{◌<◌};

use harness::input::{Stop, record};
use scheduler::{Entries, Scheduler, Sections, Tasks};
use std::array::from_fn;
use std::io::Read;

// The number of two bytes at a place, low byte first.
fn short_at(bytes: &[u8; 1348], at: usize) -> u16
    requires { at < 1347 }
{
    u16::from_le_bytes([bytes[at], bytes[at + 1]])
}

// The tasks: a count, and 32 rules of 19 bytes.
fn tasks_of(bytes: &[u8; 1348]) -> Tasks {
    Tasks {
        count: usize::from(short_at(bytes, 0)),
        priorities: from_fn(|i| bytes[19 * i + 4]),
        settings: from_fn(|i| bytes[19 * i + 5]),
        most: from_fn(|i| bytes[19 * i + 6]),
        uses: from_fn(|i| bytes[i / 16 * 19 + i % 16 + 7]),
    }
}

// The entries: 32 of 22 bytes.
fn entries_of(bytes: &[u8; 1348]) -> Entries {
    Entries {
        states: from_fn(|i| bytes[22 * i + 612]),
        started: from_fn(|i| 0 < bytes[22 * i + 613]),
        sleeps: from_fn(|i| bytes[22 * i + 614]),
        opened: from_fn(|i| bytes[i / 16 * 22 + i % 16 + 615]),
        held: from_fn(|i| bytes[22 * i + 631]),
        serials: from_fn(|i| short_at(bytes, 22 * i + 632)),
    }
}

// The open sections: a count, and 16 slots of 2 bytes.
fn sections_of(bytes: &[u8; 1348]) -> Sections {
    Sections {
        count: usize::from(short_at(bytes, 2)),
        places: from_fn(|i| bytes[2 * i + 1316]),
        resources: from_fn(|i| bytes[2 * i + 1317]),
    }
}

// Reads the rest of such a case, which prints nothing, and answers the next scheduler.
pub fn run(input: &mut impl Read) -> Result<Scheduler, Stop> {
    let bytes = record(input)?;
    Ok(Scheduler {
        tasks: tasks_of(&bytes),
        entries: entries_of(&bytes),
        sections: sections_of(&bytes),
    })
}
