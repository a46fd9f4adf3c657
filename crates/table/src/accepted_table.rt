// An accepted table: its bytes with what it has. Who holds one knows that the bytes are well formed, and asks it of no one.
ghost use Rattle.std.specs.Prelude.{ℕ, ◌≤◌, get_or};
ghost use Rattle.table.specs.WellFormed.{WellFormed};

use crate::fields::whole_word;
use crate::{Refusal, Shape, Task, Use};

// The bytes of an accepted table, and its shape.
#[derive(Clone, Copy)]
pub struct Table<'a> {
    pub bytes: &'a [u8],
    pub shape: Shape,
    pub ghost well_formed: { WellFormed bytes.now shape },
    pub ghost are_bytes: { (j : ℕ) → get_or bytes.now j 0 ≤ 255 },
}

impl<'a> Table<'a> {
    ghost use Rattle.std.specs.Prelude.{◌≡◌, ◌<◌, MatchResult};
    ghost use Rattle.table.specs.Reading.{read_table};
    ghost use Rattle.table.specs.WellFormed.{task_of, use_of};

    // Reads a table, whatever the bytes are.
    pub fn read(bytes: &'a [u8]) -> Result<Table<'a>, Refusal>
        ensures { MatchResult result
            (λ table. (table.bytes.now ≡ bytes.now) × (read_table bytes.now ≡ Ok table.shape))
            (λ refusal. read_table bytes.now ≡ Err refusal) }
    {
        let shape = crate::read(bytes)?;
        Ok(Table { bytes, shape })
    }

    // The task at a place.
    pub fn task(&self, place: usize) -> Task
        requires { place < self.now.shape.tasks }
        ensures { result ≡ task_of self.now.bytes.now place }
    {
        let bytes = self.bytes;
        let at = 20 * place;
        Task {
            priority: bytes[at + 1],
            setting: bytes[at + 2],
            sleeps: bytes[at + 3],
            run: whole_word(bytes, at + 4),
            sleep: whole_word(bytes, at + 8),
            deadline: whole_word(bytes, at + 12),
            period: whole_word(bytes, at + 16),
        }
    }

    // The use at a place.
    pub fn usage(&self, place: usize) -> Use
        requires { place < self.now.shape.uses }
        ensures { result ≡ use_of self.now.bytes.now self.now.shape.uses_at place }
    {
        let bytes = self.bytes;
        let at = self.shape.uses_at + 8 * place;
        Use {
            priority: bytes[at + 1],
            resource: bytes[at + 2],
            times: bytes[at + 3],
            length: whole_word(bytes, at + 4),
        }
    }
}
