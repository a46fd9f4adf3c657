// The report on a table: its analysis, with a row for each task in a list that the host lends.
#![tactic(auto)]

ghost use Rattle.std.specs.Prelude.{◌≡◌, length};
ghost use Rattle.report.specs.Reporting.{reported, rows_after};

mod finding;

use table::Refusal;

// The row of a task: its priority; the number of its answer, 0 for none, 1 for a bound, 2 for a conditional value; the value, or 0; its deadline.
// The answer is a number, since the layout is C's.
#[repr(C)]
#[derive(Clone, Copy, Default)]
pub struct Row {
    pub priority: u8,
    pub answer: u8,
    pub value: u64,
    pub deadline: u32,
}

// What a report answers: a refusal, if it is refused; the tasks, each of which has its row; the verdict; the evaluations.
#[derive(Clone, Copy)]
pub struct Reported {
    pub refusal: Option<Refusal>,
    pub tasks: usize,
    pub verdict: bool,
    pub evaluations: u64,
}

// Reports on a table within an allowance of evaluations: the first rows are the tasks', in table order, and later rows keep their values.
// A refusal leaves every row as it was.
pub fn report(bytes: &[u8], allowance: u64, rows: &mut [Row]) -> Reported
    ensures { (result ≡ reported bytes.now allowance (length rows.old))
        × (rows.new ≡ rows_after bytes.now allowance rows.old) }
{
    let mut found = [Row::default(); 32];
    let reported = finding::find(bytes, allowance, rows.len(), &mut found);
    let tasks = reported.tasks;
    rows[..tasks].copy_from_slice(&found[..tasks]);
    reported
}
