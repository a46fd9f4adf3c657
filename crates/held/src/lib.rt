// A task table held by value: loaded from bytes that the reader accepts, and written as bytes that it would accept.
#![tactic(auto)]

ghost use Rattle.std.specs.Prelude.{◌≡◌, length};
ghost use Rattle.held.specs.Loading.{load_table};
ghost use Rattle.held.specs.Replies.{count_of};
ghost use Rattle.held.specs.Writing.{write_table, written};

mod encoder;
mod loader;
mod record;

pub use record::put_word;
pub use table::{number, place};
use table::{Refusal, Refuses, Shape, Task, Use, Why};

// A table of at most 32 tasks and 512 uses. Entries past the counts don't count: memory is fixed, so there is no list that grows.
#[derive(Clone, Copy)]
pub struct Table {
    pub tasks: [Task; 32],
    pub task_count: usize,
    pub uses: [Use; 512],
    pub use_count: usize,
}

// What bytes are read as, and the table that they hold: all zeros where they are refused.
#[derive(Clone, Copy)]
pub struct Loaded {
    pub reading: Result<Shape, Refusal>,
    pub table: Table,
}

// Loads a table: its reading, and its tasks and uses where it is accepted.
pub fn load(bytes: &[u8]) -> Loaded
    ensures { result ≡ load_table bytes.now }
{
    let reading = table::read(bytes);
    Loaded {
        reading,
        table: loader::filled(bytes, reading.unwrap_or_default()),
    }
}

// How many bytes an answer has written.
pub fn count<R: Refuses>(answer: Result<usize, R>) -> usize
    ensures { result ≡ count_of answer }
{
    answer.unwrap_or(0)
}

// Writes a table to the start of the buffer, or leaves every byte where it is refused.
pub fn write(table: Table, out: &mut [u8]) -> Result<usize, Refusal>
    ensures { (result ≡ write_table table (length out.old)) × (out.new ≡ written table out.old) }
{
    let mut buffer = [0u8; 4765];
    let length = encoder::encode(&table, &mut buffer);
    let bytes = &buffer[..length];
    table::read(bytes)?;
    if out.len() < length {
        return Err(Why::Room.at(0));
    }
    out[..length].copy_from_slice(bytes);
    Ok(length)
}
