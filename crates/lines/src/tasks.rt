// The lines of the tasks.
ghost use Rattle.std.specs.Prelude.{◌*◌, ◌≤◌};
ghost use Rattle.lines.specs.Lines.{answer_text, task_line, task_lines};
ghost use Rattle.words.specs.Pages.{room, Puts};

use analysis::{Analysis, TaskAnswer};
use table::Task;
use words::Page;

// Puts what a task is answered.
#[tactic(auto, using(words::proofs::Pages::pages, words::proofs::Words::decimal_few))]
fn put_answer(page: &mut Page, answer: TaskAnswer)
    requires { 27 ≤ room page.old }
    ensures { Puts page.old (answer_text answer) page.new }
{
    match answer {
        TaskAnswer::Bound(value) => page.number(b" bound ", value),
        TaskAnswer::Conditional(value) => page.number(b" if ", value),
        TaskAnswer::Nothing => page.text(b" none"),
    }
}

// Puts the line of a task.
#[tactic(auto, using(words::proofs::Pages::pages, words::proofs::Words::decimal_few, crate::proofs::Puts::answer_few))]
fn put_task(page: &mut Page, task: Task, answer: TaskAnswer)
    requires { 80 ≤ room page.old }
    ensures { Puts page.old (task_line task answer) page.new }
{
    page.number(b"", u64::from(task.priority));
    put_answer(page, answer);
    page.number(b" deadline ", u64::from(task.deadline));
    page.text(b"\n");
}

// Puts the lines of the tasks.
#[tactic(auto, using(words::proofs::Pages::pages, crate::proofs::Puts::task_lines_none, crate::proofs::Puts::task_lines_more))]
pub fn put_tasks(page: &mut Page, bytes: &[u8], analysis: &Analysis)
    requires tasks_bound { analysis.now.tasks ≤ 32 }
    requires room { 80 * analysis.now.tasks ≤ room page.old }
    ensures { Puts page.old (task_lines bytes.now analysis.now analysis.now.tasks) page.new }
{
    for i in 0..analysis.tasks {
        let task = table::task_at(bytes, 20 * i);
        put_task(page, task, analysis.answer(i));
    }
}
