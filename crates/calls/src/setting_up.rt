// Cases that set the scheduler up on a table.
ghost use Rattle.std.specs.Prelude.{OnOk};
ghost use Rattle.std.specs.Io.KnownBytes.{Appends};
ghost use Rattle.calls.specs.Lines.{set_up_line};

use harness::input::{Stop, part};
use scheduler::Scheduler;
use std::io;
use std::io::{Read, Write};
use table::Refusal;

// Prints the line of a setting up.
fn put_set_up<W: Write>(out: &mut W, refusal: Option<Refusal>) -> io::Result<()>
    ensures { OnOk result (Appends (W.contents out.old) (W.contents out.new) (set_up_line refusal)) }
{
    match refusal {
        None => writeln!(out, "set up 0 at 0"),
        Some(refusal) => writeln!(out, "set up {} at {}", refusal.why.number(), refusal.place),
    }
}

// Reads the rest of such a case, prints its line and answers the next scheduler.
pub fn run(input: &mut impl Read, out: &mut impl Write) -> Result<Scheduler, Stop> {
    let mut bytes = [0; 65535];
    let ready = scheduler::set_up(part(input, &mut bytes)?);
    put_set_up(out, ready.refusal)?;
    Ok(ready.scheduler)
}
