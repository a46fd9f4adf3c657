// Checksums of held tables and of bytes.
use harness::sums::Checksum;
use held::Table;
use std::fmt;
use table::{Task, Use};

// The checksum after the fields of a task.
fn with_task(sum: Checksum, task: &Task) -> Checksum {
    sum.with(task.priority)
        .with(task.setting)
        .with(task.sleeps)
        .with(task.run)
        .with(task.sleep)
        .with(task.deadline)
        .with(task.period)
}

// The checksum after the fields of a use.
fn with_use(sum: Checksum, usage: &Use) -> Checksum {
    sum.with(usage.priority)
        .with(usage.resource)
        .with(usage.times)
        .with(usage.length)
}

// The checksum of a held table: its counts, then all tasks, then all uses.
pub fn of_table(table: &Table) -> Checksum {
    let sum = Checksum::start()
        .with(table.task_count as u64)
        .with(table.use_count as u64);
    let sum = table.tasks.iter().fold(sum, with_task);
    table.uses.iter().fold(sum, with_use)
}

// Some bytes, printed as their length and their checksum.
#[derive(Clone, Copy)]
pub struct Summed<'a>(pub &'a [u8]);

impl fmt::Display for Summed<'_> {
    fn fmt<W: fmt::Write>(&self, f: &mut fmt::Formatter<W>) -> fmt::Result {
        let Summed(bytes) = *self;
        let length = bytes.len();
        let sum = Checksum::start().with_bytes(bytes);
        write!(f, "{length} {sum}")
    }
}
