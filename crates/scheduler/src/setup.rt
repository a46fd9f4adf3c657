// Setting up: the scheduler of a table's tasks, with no job yet.
ghost use Rattle.std.specs.Prelude.{◌≡◌, ◌≤◌};
ghost use Rattle.scheduler.specs.Fresh.{column, all_times, fresh_with, fresh_of, empty, set_up};

use crate::{Entries, Scheduler, Sections, Tasks};
use table::{Refusal, Table};

// What setting up answers: no refusal where the table is accepted, else its refusal and a scheduler with no tasks.
#[derive(Clone, Copy)]
pub struct SetUp {
    pub refusal: Option<Refusal>,
    pub scheduler: Scheduler,
}

// A byte of each task's record, 0 past the tasks.
fn column(bytes: &[u8], tasks: usize, field: usize) -> [u8; 32]
    requires { (tasks ≤ 32) × (field ≤ 3) }
    ensures { result ≡ column bytes.now tasks field }
{
    let mut numbers = [0u8; 32];
    // `array::from_fn` leaves the fact of each element open
    for i in 0..tasks {
        numbers[i] = table::byte_at(bytes, 20 * i + field);
    }
    numbers
}

// N for each task and each of its sixteen resources.
fn times(table: &Table) -> [u8; 512]
    ensures { result ≡ all_times table.now.bytes.now table.now.shape }
{
    let mut times = [0u8; 512];
    for j in 0..table.shape.uses {
        let usage = table.usage(j);
        let place = table::place_of(table.bytes, table.shape.tasks, 0, usage.priority);
        let k = usize::from(usage.resource) - 1;
        times[place * 16 + k] = usage.times;
    }
    times
}

// A scheduler of these tasks with no job yet.
fn with_tasks(tasks: Tasks) -> Scheduler
    ensures { result ≡ fresh_with tasks }
{
    Scheduler {
        tasks,
        entries: Entries::new(),
        sections: Sections::new(),
    }
}

// The scheduler of an accepted table.
fn fresh(table: &Table) -> Scheduler
    ensures { result ≡ fresh_of table.now.bytes.now table.now.shape }
{
    let tasks = table.shape.tasks;
    with_tasks(Tasks {
        count: tasks,
        priorities: column(table.bytes, tasks, 1),
        settings: column(table.bytes, tasks, 2),
        most: column(table.bytes, tasks, 3),
        uses: times(table),
    })
}

// A scheduler with no tasks.
fn empty() -> Scheduler
    ensures { result ≡ empty }
{
    with_tasks(Tasks {
        count: 0,
        priorities: [0; 32],
        settings: [0; 32],
        most: [0; 32],
        uses: [0; 512],
    })
}

// Sets up on a table's bytes, whatever they are.
pub fn set_up(bytes: &[u8]) -> SetUp
    ensures { result ≡ set_up bytes.now }
{
    match Table::read(bytes) {
        Ok(table) => SetUp {
            refusal: None,
            scheduler: fresh(&table),
        },
        Err(refusal) => SetUp {
            refusal: Some(refusal),
            scheduler: empty(),
        },
    }
}
