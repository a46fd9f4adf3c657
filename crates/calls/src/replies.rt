// Printing and adding up replies.
ghost use Rattle.std.specs.Prelude.{OnOk};
ghost use Rattle.std.specs.Io.KnownBytes.{Appends};
ghost use Rattle.calls.specs.Lines.{reply_line};

use harness::sums::Checksum;
use scheduler::{Number, Reply, refusal_number};
use std::io;
use std::io::Write;

// A number that no job has.
const NOBODY: Number = Number {
    priority: 0,
    serial: 0,
};

// Prints the line of a reply.
pub fn put_reply<W: Write>(out: &mut W, reply: &Reply) -> io::Result<()>
    ensures { OnOk result (Appends (W.contents out.old) (W.contents out.new) (reply_line reply.now)) }
{
    let refusal = refusal_number(reply.refusal);
    match reply.running {
        None => writeln!(out, "{refusal} idle"),
        Some(job) => writeln!(out, "{refusal} {} {}", job.priority, job.serial),
    }
}

// The checksum after a reply: its refusal, and its running job or idle.
pub fn with_reply(sum: Checksum, reply: &Reply) -> Checksum {
    let sum = sum.with(refusal_number(reply.refusal));
    match reply.running {
        None => sum.with(256u64).with(0u64),
        Some(job) => sum.with(job.priority).with(job.serial),
    }
}

// The number of the job that a release says runs; nobody's where it was refused, or where none runs.
pub fn named(released: &Reply) -> Number {
    match (released.refusal, released.running) {
        (None, Some(job)) => job,
        _ => NOBODY,
    }
}
