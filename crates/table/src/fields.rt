// The fields of a record, read off the lent bytes. What lies past the end reads as 0.
ghost use Rattle.std.specs.Prelude.{◌≡◌, ◌+◌, ◌≤◌, length, get_or};
ghost use Rattle.table.specs.Fields.{word_at, no_task, no_use, task_at, use_at};

use crate::{Task, Use};

// The byte at a place.
pub fn byte_at(bytes: &[u8], at: usize) -> u8
    ensures { result ≡ get_or bytes.now at 0 }
{
    bytes.get(at).copied().unwrap_or(0)
}

// A word of which some bytes lie past the end.
#[tactic(auto, unfolding(crate::specs::Fields::word_at))]
fn cut_word(bytes: &[u8], at: usize) -> u32
    ensures { result ≡ word_at bytes.now at }
{
    if bytes.len() <= at {
        return 0;
    }
    u32::from_le_bytes([
        byte_at(bytes, at),
        byte_at(bytes, at + 1),
        byte_at(bytes, at + 2),
        byte_at(bytes, at + 3),
    ])
}

// The word at a place where four bytes are there, low byte first.
#[tactic(auto, unfolding(crate::specs::Fields::word_at))]
pub fn whole_word(bytes: &[u8], at: usize) -> u32
    requires { at + 4 ≤ length bytes.now }
    ensures { result ≡ word_at bytes.now at }
{
    u32::from_le_bytes([bytes[at], bytes[at + 1], bytes[at + 2], bytes[at + 3]])
}

// The word at a place: four bytes, low byte first.
pub fn word_at(bytes: &[u8], at: usize) -> u32
    ensures { result ≡ word_at bytes.now at }
{
    if at < bytes.len() && 4 <= bytes.len() - at {
        return whole_word(bytes, at);
    }
    cut_word(bytes, at)
}

// A task with every field 0.
pub fn no_task() -> Task
    ensures { result ≡ no_task }
{
    Task::default()
}

// A use with every field 0.
pub fn no_use() -> Use
    ensures { result ≡ no_use }
{
    Use::default()
}

// The task record that starts at a place.
#[tactic(auto, using(crate::proofs::Laws::task_past))]
pub fn task_at(bytes: &[u8], at: usize) -> Task
    ensures { result ≡ task_at bytes.now at }
{
    if bytes.len() <= at {
        return no_task();
    }
    Task {
        priority: byte_at(bytes, at + 1),
        setting: byte_at(bytes, at + 2),
        sleeps: byte_at(bytes, at + 3),
        run: word_at(bytes, at + 4),
        sleep: word_at(bytes, at + 8),
        deadline: word_at(bytes, at + 12),
        period: word_at(bytes, at + 16),
    }
}

// The use record that starts at a place.
#[tactic(auto, using(crate::proofs::Laws::use_past))]
pub fn use_at(bytes: &[u8], at: usize) -> Use
    ensures { result ≡ use_at bytes.now at }
{
    if bytes.len() <= at {
        return no_use();
    }
    Use {
        priority: byte_at(bytes, at + 1),
        resource: byte_at(bytes, at + 2),
        times: byte_at(bytes, at + 3),
        length: word_at(bytes, at + 4),
    }
}
