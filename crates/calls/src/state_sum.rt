// Cases that print the checksum of the whole state.
ghost use Rattle.std.specs.Prelude.{◌<◌};

use harness::input::Stop;
use harness::sums::Checksum;
use scheduler::{Entries, Scheduler, Tasks};
use std::io::Write;

// The checksum after the rules of the task at a place.
fn with_rules(sum: Checksum, tasks: &Tasks, place: usize) -> Checksum
    requires { place < 32 }
{
    let first = 16 * place;
    sum.with(tasks.priorities[place])
        .with(tasks.settings[place])
        .with(tasks.most[place])
        .with_bytes(&tasks.uses[first..first + 16])
}

// The checksum after the entry at a place: its job's state, started mark and sleeps, section counts, held resource and next serial.
fn with_entry(sum: Checksum, entries: &Entries, place: usize) -> Checksum
    requires { place < 32 }
{
    let first = 16 * place;
    sum.with(entries.states[place])
        .with(entries.started[place])
        .with(entries.sleeps[place])
        .with_bytes(&entries.opened[first..first + 16])
        .with(entries.held[place])
        .with(entries.serials[place])
}

// The checksum of a state: its counts, the rules and the entries of all tasks, and all slots of open sections.
fn of_state(scheduler: &Scheduler) -> Checksum {
    let sections = &scheduler.sections;
    let mut sum = Checksum::start()
        .with(scheduler.tasks.count as u64)
        .with(sections.count as u64);
    for place in 0..32 {
        sum = with_rules(sum, &scheduler.tasks, place);
    }
    for place in 0..32 {
        sum = with_entry(sum, &scheduler.entries, place);
    }
    for (place, resource) in sections.places.iter().zip(&sections.resources) {
        sum = sum.with(*place).with(*resource);
    }
    sum
}

// Prints the line of a state; the scheduler stays.
pub fn run(out: &mut impl Write, scheduler: Scheduler) -> Result<Scheduler, Stop> {
    writeln!(out, "state {}", of_state(&scheduler))?;
    Ok(scheduler)
}
