// What tasks and uses have in common: records of one size, which are read off bytes and put into a buffer.
ghost use Rattle.std.specs.Prelude.{◌≡◌, ℕ, ◌+◌, ◌≤◌, List, length, refl};
ghost use Rattle.std.proofs.lemmas.List.Edits.{sets};
ghost use Rattle.table.specs.Fields.{task_at, use_at, no_task, no_use};
ghost use Rattle.held.specs.Writing.{word_bytes, task_bytes, use_bytes};

use table::{Task, Use};

// A record: its size, how it is read at a place, and how it is put there. The byte that begins it is the format's.
pub trait Record: Copy {
    // how many bytes its record takes
    ghost SIZE: { ℕ };

    // the record with every field 0
    ghost empty: { Self };

    // the record that starts at a place
    ghost read_at: { List ℕ → ℕ → Self };

    // the bytes of its record
    ghost record_bytes: { Self → List ℕ };

    const SIZE: usize;

    fn none() -> Self
        ensures { result ≡ empty };

    fn read(bytes: &[u8], at: usize) -> Self
        ensures { result ≡ read_at bytes.now at };

    fn put(self, buffer: &mut [u8], at: usize)
        requires { at + SIZE ≤ length buffer.old }
        ensures { buffer.new ≡ sets buffer.old at (record_bytes self) };

    // they are that many
    ghost long: { (x : Self) → length (record_bytes x) ≡ SIZE };
}

impl Record for Task {
    ghost SIZE = { 20 };

    ghost empty = { no_task };

    ghost read_at = { task_at };

    ghost record_bytes = { task_bytes };

    ghost long = { λ _. refl };

    const SIZE: usize = 20;

    fn none() -> Task {
        table::no_task()
    }

    fn read(bytes: &[u8], at: usize) -> Task {
        table::task_at(bytes, at)
    }

    fn put(self, buffer: &mut [u8], at: usize) {
        buffer[at] = 1;
        buffer[at + 1] = self.priority;
        buffer[at + 2] = self.setting;
        buffer[at + 3] = self.sleeps;
        put_word(buffer, at + 4, self.run);
        put_word(buffer, at + 8, self.sleep);
        put_word(buffer, at + 12, self.deadline);
        put_word(buffer, at + 16, self.period);
    }
}

impl Record for Use {
    ghost SIZE = { 8 };

    ghost empty = { no_use };

    ghost read_at = { use_at };

    ghost record_bytes = { use_bytes };

    ghost long = { λ _. refl };

    const SIZE: usize = 8;

    fn none() -> Use {
        table::no_use()
    }

    fn read(bytes: &[u8], at: usize) -> Use {
        table::use_at(bytes, at)
    }

    fn put(self, buffer: &mut [u8], at: usize) {
        buffer[at] = 2;
        buffer[at + 1] = self.priority;
        buffer[at + 2] = self.resource;
        buffer[at + 3] = self.times;
        put_word(buffer, at + 4, self.length);
    }
}

// A word as four bytes, low byte first.
pub fn put_word(buffer: &mut [u8], at: usize, word: u32)
    requires { at + 4 ≤ length buffer.old }
    ensures { buffer.new ≡ sets buffer.old at (word_bytes word) }
{
    buffer[at..at + 4].copy_from_slice(&word.to_le_bytes());
}
