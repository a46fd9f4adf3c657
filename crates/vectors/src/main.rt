// Runs the cases of data/tables through the proved crates and prints the lines of each. second/README.md has the formats.
#![tactic(auto)]

mod analysing;
mod reading;
mod sums;
mod texts;
mod writing;

use harness::input::{Stop, byte};
use std::fs::File;
use std::io;
use std::io::{Read, Write};

// Runs one case. Where what stands there is no case, the cases are over.
fn run_case(input: &mut impl Read, out: &mut impl Write) -> Result<(), Stop> {
    let letter = byte(input)?;
    match letter {
        b'A' => analysing::run(input, out),
        b'L' => texts::run_long(input, out),
        b'P' => texts::run(input, out),
        b'R' => reading::run(input, out),
        b'W' => writing::run(input, out),
        _ => Err(Stop::Over),
    }
}

// Runs the cases one after the other, at most 100,000, since nothing says that the input ends.
fn run_cases(input: &mut impl Read, out: &mut impl Write) -> Result<(), Stop> {
    for _ in 0..100_000 {
        run_case(input, out)?;
    }
    Ok(())
}

// Runs the cases of the file `tables`: a program is run inside the folder data/.
fn main(rt: HostRuntime) -> io::Result<()> {
    let mut input = File::open(&rt, "tables")?;
    run_cases(&mut input, &mut rt.stdout()).or_else(Stop::answer)
}
