// What a report will say, worked out before any lent row is touched.
ghost use Rattle.std.specs.Prelude.{◌≡◌, ◌++◌, ◌≤◌, drop};
ghost use Rattle.searches.specs.Indexed.{every};
ghost use Rattle.table.specs.WellFormed.{task_of};
ghost use Rattle.report.specs.Reporting.{answer_number, answer_value, row_of, task_row, refused_by, summary};
ghost use Rattle.report.specs.Finding.{Finds};

use crate::{Reported, Row};
use analysis::{Analysis, TaskAnswer};
use table::{Refusal, Why};

// The number of an answer: 0 for none, 1 for a bound, 2 for a conditional value. C hosts read it in their rows; a `From` is for a type of this crate.
fn number_of(answer: TaskAnswer) -> u8
    ensures { result ≡ answer_number answer }
{
    match answer {
        TaskAnswer::Bound(_) => 1,
        TaskAnswer::Conditional(_) => 2,
        TaskAnswer::Nothing => 0,
    }
}

// The value of an answer, 0 for none.
fn value_of(answer: TaskAnswer) -> u64
    ensures { result ≡ answer_value answer }
{
    match answer {
        TaskAnswer::Bound(value) | TaskAnswer::Conditional(value) => value,
        TaskAnswer::Nothing => 0,
    }
}

// The row of the task at a place, of which there are 32 at most.
fn row_of(bytes: &[u8], place: usize, answer: TaskAnswer) -> Row
    requires { place ≤ 32 }
    ensures { result ≡ row_of (task_of bytes.now place) answer }
{
    let task = table::task_at(bytes, 20 * place);
    Row {
        priority: task.priority,
        answer: number_of(answer),
        value: value_of(answer),
        deadline: task.deadline,
    }
}

// Puts the rows of the tasks that an analysis tells of in front, in table order; later rows stay.
fn put_rows(bytes: &[u8], analysis: &Analysis, rows: &mut [Row; 32])
    requires { analysis.now.tasks ≤ 32 }
    ensures { rows.new ≡ every (task_row bytes.now analysis.now) analysis.now.tasks 0 ++ drop analysis.now.tasks rows.old }
{
    for i in 0..analysis.tasks {
        rows[i] = row_of(bytes, i, analysis.answer(i));
    }
}

// A refusal: no tasks, so no rows.
fn refused(refusal: Refusal) -> Reported
    ensures { result ≡ refused_by refusal }
{
    Reported {
        refusal: Some(refusal),
        tasks: 0,
        verdict: false,
        evaluations: 0,
    }
}

// What a report answers of an analysis.
impl From<Analysis> for Reported {
    ghost from_gives = { λ analysis reported. reported ≡ summary analysis };

    fn from(analysis: Analysis) -> Reported {
        Reported {
            refusal: analysis.refusal,
            tasks: analysis.tasks,
            verdict: analysis.verdict,
            evaluations: analysis.evaluations,
        }
    }
}

// What is found of any bytes, where so many rows are lent: a refusal where the table is refused, or has more tasks; else its analysis. The rows that
// are found are put into an array of the caller's: answered beside the reply they would stand on the stack twice.
pub fn find(bytes: &[u8], allowance: u64, room: usize, rows: &mut [Row; 32]) -> Reported
    ensures { Finds bytes.now allowance room result rows.new }
{
    match table::read(bytes) {
        Err(refusal) => refused(refusal),
        Ok(shape) if room < shape.tasks => refused(Why::Rows.at(0)),
        Ok(_) => {
            let analysis = analysis::analyse(bytes, allowance);
            put_rows(bytes, &analysis, rows);
            Reported::from(analysis)
        }
    }
}
