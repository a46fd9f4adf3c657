// The analysis of a table: each task's bound, or none, by rounds until one changes nothing, within an allowance of evaluations.
#![tactic(auto)]

ghost use Rattle.std.specs.Prelude.{◌≡◌};
ghost use Rattle.analysis.specs.Analysing.{refused_by, analysed_as, analysed};
ghost use Rattle.analysis.specs.Answering.{told, answer_at};

mod solver;
mod starts;
mod turns;

use equations::{Equations, Listed};
pub use solver::Reply;
use table::{Refusal, Table, Why};
use turns::Rounds;

// What the analysis answers for a task: its bound; its value on the condition that a task with none is mended; or none.
#[derive(Clone, Copy)]
pub enum TaskAnswer {
    Bound(u64),
    Conditional(u64),
    Nothing,
}

// That the next evaluation would pass the allowance.
#[derive(Clone, Copy)]
pub struct Spent;

// What the analysis of a table answers: a refusal, if it is refused; the tasks; the verdict, whether every task has a bound; the evaluations;
// and for each task its value in the final vector, and whether it has a bound. The last two are told by `answer` alone; they stand in two arrays,
// since the rounds work on the values as on one slice of numbers.
#[derive(Clone, Copy)]
pub struct Analysis {
    pub refusal: Option<Refusal>,
    pub tasks: usize,
    pub verdict: bool,
    pub evaluations: u64,
    values: [u64; 32],
    bounds: [bool; 32],
}

// A value as it may be told: a bound only where every task has one.
fn told(verdict: bool, bound: bool, value: u64) -> TaskAnswer
    ensures { result ≡ told verdict bound value }
{
    match (verdict, bound) {
        (true, true) => TaskAnswer::Bound(value),
        (false, true) => TaskAnswer::Conditional(value),
        (_, false) => TaskAnswer::Nothing,
    }
}

impl Analysis {
    // What the task at a place is answered; none where there is no task.
    pub fn answer(self, place: usize) -> TaskAnswer
        ensures { result ≡ answer_at self place }
    {
        if 32 <= place {
            return TaskAnswer::Nothing;
        }
        told(self.verdict, self.bounds[place], self.values[place])
    }
}

// A refusal: everything else is 0.
fn refused(refusal: Refusal) -> Analysis
    ensures { result ≡ refused_by refusal }
{
    Analysis {
        refusal: Some(refusal),
        tasks: 0,
        verdict: false,
        evaluations: 0,
        values: [0; 32],
        bounds: [false; 32],
    }
}

// The analysis of an accepted table under the settings that it names.
fn analyse_table(table: &Table, allowance: u64) -> Analysis
    ensures { result ≡ analysed_as (Ok table.now.shape) table.now.bytes.now allowance }
{
    let tasks = table.shape.tasks;
    let settings = starts::own_settings(table);
    let ceilings = equations::ceilings(table);
    let rounds = Rounds {
        listed: Listed {
            equations: Equations {
                table: *table,
                settings: &settings,
            },
            ceilings: &ceilings,
        },
        allowance,
    };
    let mut values = [0u64; 32];
    let mut bounds = [false; 32];
    let Ok(evaluations) = rounds.settle(&mut values[..tasks], &mut bounds) else {
        return refused(Why::Allowance.at(0));
    };
    Analysis {
        refusal: None,
        tasks,
        verdict: turns::all_bounded(&bounds[..tasks]),
        evaluations,
        values,
        bounds,
    }
}

// The analysis of a table within an allowance of evaluations.
pub fn analyse(bytes: &[u8], allowance: u64) -> Analysis
    ensures { result ≡ analysed bytes.now allowance }
{
    match Table::read(bytes) {
        Ok(table) => analyse_table(&table, allowance),
        Err(refusal) => refused(refusal),
    }
}
