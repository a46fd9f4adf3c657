// The bytes of a text, line by line.
ghost use Rattle.std.specs.Prelude.{◌≡◌, ◌+◌, ◌≤◌, ◌<◌, length};
ghost use Rattle.notation.specs.Causes.{cause_number};
ghost use Rattle.notation.specs.Columns.{column_or_none};
ghost use Rattle.notation.specs.Numbered.{fault_of, Faulty};
ghost use Rattle.notation.specs.Packing.{longest, whole, past, start, line_step, end_of, pack_text};
ghost use Rattle.notation.specs.Stepping.{Ready, Judgeable, Stepped, PackedTo, front_of, judged_of};

use crate::Fault;
use crate::causes::Cause;
use crate::cursor::Cursor;
use crate::kinds::END;
use crate::reasons::Reason;
use crate::refused::Refused;
use crate::rows::{Misfit, Taken};
use words::{Class, run_end};

// Where packing stands: the next line's place and number, the bytes of the records so far, and the tasks among them.
#[derive(Clone, Copy)]
pub struct Position {
    pub at: usize,
    pub line: usize,
    pub count: usize,
    pub tasks: usize,
}

impl Position {
    // Past the line that has a place, with so many bytes and tasks so far.
    fn past(self, last: &Cursor, count: usize, tasks: usize) -> Position
        requires { (length last.now.text.now ≤ longest) × (self.line ≤ longest + 1) }
        ensures value { result ≡ past last.now.text.now self last.now.at count tasks }
        ensures within { result.at ≤ length last.now.text.now + 1 }
    {
        Position {
            at: run_end(last.text, last.at, Class::Line) + 1,
            line: self.line + 1,
            count,
            tasks,
        }
    }

    // A fault of its line by a word.
    fn misfit(self, misfit: Misfit) -> Fault
        ensures { fault_of result ≡ record { line = self.line; cause = cause_number misfit.cause; column = column_or_none misfit.column; at = misfit.at; value = 0; other = 0 } }
    {
        Fault {
            line: self.line,
            cause: misfit.cause,
            column: misfit.column,
            at: misfit.at,
            value: 0,
            other: 0,
        }
    }

    // A fault of its line by a rule.
    fn broken(self, why: Reason) -> Fault
        ensures { fault_of result ≡ record { line = self.line; cause = cause_number why.cause; column = 11; at = 0; value = why.value; other = why.other } }
    {
        Fault {
            line: self.line,
            cause: why.cause,
            column: None,
            at: 0,
            value: why.value,
            other: why.other,
        }
    }
}

// A fault of the whole text.
pub fn whole(line: usize, cause: Cause) -> Fault
    ensures { Faulty (fault_of result) ≡ (whole line (cause_number cause)).packing }
{
    Fault {
        line,
        cause,
        column: None,
        at: 0,
        value: 0,
        other: 0,
    }
}

// A record that was put after those before it: on where the reader accepts them all with an end, else why not.
fn judge(
    text: &[u8],
    records: &mut [u8],
    position: Position,
    taken: Taken,
) -> Result<Position, Fault>
    requires ready { Ready text.now position records.old }
    requires judgeable { Judgeable text.now position records.old taken }
    ensures { Stepped text.now position (judged_of text.now position taken records.old) records.new result }
{
    let count = taken.count;
    records[count] = END;
    match table::read(&records[..count + 1]) {
        Ok(shape) => {
            let last = Cursor { text, at: taken.at };
            Ok(position.past(&last, count, shape.tasks))
        }
        Err(refusal) => {
            let refused = Refused {
                records: &records[..count],
                at: position.count,
                tasks: position.tasks,
                why: refusal.why,
            };
            Err(position.broken(refused.reason()))
        }
    }
}

// One line of text.
fn line_step(text: &[u8], records: &mut [u8], position: Position) -> Result<Position, Fault>
    requires ready { Ready text.now position records.old }
    requires at_in_bounds { position.at < length text.now }
    ensures { Stepped text.now position (line_step text.now position (front_of position records.old)) records.new result }
{
    let line = Cursor {
        text,
        at: position.at,
    };
    match line.put_row(records, position.count) {
        Err(misfit) => Err(position.misfit(misfit)),
        Ok(taken) if taken.count == position.count => {
            let last = Cursor { text, at: taken.at };
            Ok(position.past(&last, position.count, position.tasks))
        }
        Ok(taken) => judge(text, records, position, taken),
    }
}

// The end of the text: the records so far with an end, where the reader accepts them.
fn end_step(records: &mut [u8], position: Position) -> Result<usize, Fault>
    requires { (4800 ≤ length records.old) × (position.count ≤ 4736) }
    ensures { PackedTo (end_of position (front_of position records.old)) records.new result }
{
    let count = position.count;
    records[count] = END;
    match table::read(&records[..count + 1]) {
        Ok(_) => Ok(count + 1),
        Err(_) => Err(whole(position.line, Cause::NoTask)),
    }
}

// The bytes of a whole text, at the front of the records.
pub fn pack_text(text: &[u8], records: &mut [u8]) -> Result<usize, Fault>
    requires { 4800 ≤ length records.old }
    ensures { PackedTo (pack_text text.now) records.new result }
{
    if 262144 < text.len() {
        return Err(whole(1, Cause::TooLong));
    }
    let mut position = Position {
        at: 0,
        line: 1,
        count: 0,
        tasks: 0,
    };
    // A while: how far a step goes is what the line says.
    while position.at < text.len() {
        position = line_step(text, records, position)?;
    }
    end_step(records, position)
}
