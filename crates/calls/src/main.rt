// Runs the calls of data/calls on the scheduler and prints a line for each. second/README.md has the formats.
#![tactic(auto)]

mod burst;
mod calling;
mod made_up;
mod replies;
mod setting_up;
mod state_sum;

use harness::input::{Stop, byte};
use scheduler::Scheduler;
use std::fs::File;
use std::io;
use std::io::{Read, Write};

// Runs one case and answers the next scheduler. Where what stands there is no case, the cases are over.
fn run_case(
    input: &mut impl Read,
    out: &mut impl Write,
    scheduler: Scheduler,
) -> Result<Scheduler, Stop> {
    let letter = byte(input)?;
    match letter {
        b'T' => setting_up::run(input, out),
        b'M' => made_up::run(input),
        b'B' => burst::run(input, out, scheduler),
        b'S' => state_sum::run(out, scheduler),
        _ => calling::run(input, out, scheduler, letter),
    }
}

// Runs the cases one after the other, at most 1,000,000, since nothing says that the input ends.
fn run_cases(input: &mut impl Read, out: &mut impl Write) -> Result<(), Stop> {
    let mut scheduler = scheduler::set_up(b"").scheduler;
    for _ in 0..1_000_000 {
        scheduler = run_case(input, out, scheduler)?;
    }
    Ok(())
}

// Runs the cases of the file `calls`: a program is run inside the folder data/.
fn main(rt: HostRuntime) -> io::Result<()> {
    let mut input = File::open(&rt, "calls")?;
    run_cases(&mut input, &mut rt.stdout()).or_else(Stop::answer)
}
