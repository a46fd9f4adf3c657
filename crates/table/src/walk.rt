// The walk over a table's records, one record a step.
ghost use Rattle.std.specs.Prelude.{◌≡◌, ◌+◌, ◌*◌, ◌^◌, ◌<◌};
ghost use Rattle.table.specs.Rules.{with_task, with_use};
ghost use Rattle.table.specs.Reading.{start_walk, task_step, use_step, end_step, kind_of, step_at};
ghost use Rattle.table.specs.Sound.{Sound};

use crate::fields::{task_at, use_at, word_at};
use crate::rules::{place_of, sum_after, task_rule, use_rule};
use crate::{Refusal, Shape, Task, Use, Why};

// Where the walk stands: the next record's place; the tasks so far and the last one's priority, 256 before the first; the uses so far,
// the place of the last one's task, the least resource that its next use may name, and what its sections add up to.
// `last` is no `Option`: 256 is above every priority, so one comparison serves the first task too.
// That it is `Sound` is required and no ghost field: the definitions build walks that are not.
#[derive(Clone, Copy)]
pub struct Walk {
    pub at: usize,
    pub tasks: usize,
    pub last: u32,
    pub uses: usize,
    pub user: usize,
    pub least: u32,
    pub sum: u64,
}

// One record further, or the end of a whole table.
#[derive(Clone, Copy)]
pub enum Step {
    On(Walk),
    Done(Shape),
}

// What a record is.
#[derive(Clone, Copy)]
enum Kind {
    Task,
    Use,
    End,
}

impl Kind {
    // The kind that a byte says, if it says one.
    fn of(byte: u8) -> Option<Kind>
        ensures { result ≡ kind_of byte }
    {
        match byte {
            1 => Some(Kind::Task),
            2 => Some(Kind::Use),
            3 => Some(Kind::End),
            0 | 4..=255 => None,
        }
    }
}

impl Walk {
    // Before the first record.
    pub fn start() -> Walk
        ensures { result ≡ start_walk }
    {
        Walk {
            at: 0,
            tasks: 0,
            last: 256,
            uses: 0,
            user: 0,
            least: 0,
            sum: 0,
        }
    }

    // Past a task.
    fn with_task(self, task: Task) -> Walk
        requires { (self.at < 2 ^ 63) × (self.tasks < 2 ^ 63) }
        ensures { result ≡ with_task self task }
    {
        Walk {
            at: self.at + 20,
            tasks: self.tasks + 1,
            last: u32::from(task.priority),
            ..self
        }
    }

    // Past a use of the task at a place.
    fn with_use(self, usage: Use, user: usize) -> Walk
        requires { (self.at < 2 ^ 63) × (self.uses < 2 ^ 63) × (self.sum < 2 ^ 32) }
        ensures { result ≡ with_use self usage user }
    {
        Walk {
            at: self.at + 8,
            uses: self.uses + 1,
            user,
            least: u32::from(usage.resource) + 1,
            sum: sum_after(self, usage, user),
            ..self
        }
    }

    // Over a task record: 19 bytes of body.
    #[tactic(auto, unfolding(crate::specs::Reading::task_step))]
    fn task_step(self, bytes: &[u8]) -> Result<Walk, Refusal>
        requires { Sound bytes.now self }
        ensures { result ≡ task_step bytes.now self }
    {
        let at = self.at;
        if bytes.len() - at < 20 {
            return Err(Why::Cut.at(at));
        }
        let task = task_at(bytes, at);
        task_rule(self, task).map_err(|why| why.at(at))?;
        Ok(self.with_task(task))
    }

    // Over a use record: 7 bytes of body.
    #[tactic(auto, using(crate::proofs::Laws::place_most), unfolding(crate::specs::Reading::use_step))]
    fn use_step(self, bytes: &[u8]) -> Result<Walk, Refusal>
        requires { Sound bytes.now self }
        ensures { result ≡ use_step bytes.now self }
    {
        let at = self.at;
        if bytes.len() - at < 8 {
            return Err(Why::Cut.at(at));
        }
        let usage = use_at(bytes, at);
        let user = place_of(bytes, self.tasks, self.user, usage.priority);
        let run = word_at(bytes, 20 * user + 4);
        use_rule(self, usage, user, run).map_err(|why| why.at(at))?;
        Ok(self.with_use(usage, user))
    }

    // At the end record, which has no body and nothing after it.
    #[tactic(auto, unfolding(crate::specs::Reading::end_step))]
    fn end_step(self, bytes: &[u8]) -> Result<Shape, Refusal>
        requires { Sound bytes.now self }
        ensures { result ≡ end_step bytes.now self }
    {
        let at = self.at;
        let tasks = self.tasks;
        if tasks == 0 {
            return Err(Why::Order.at(at));
        }
        if 1 < bytes.len() - at {
            return Err(Why::Beyond.at(at + 1));
        }
        Ok(Shape {
            tasks,
            uses_at: 20 * tasks,
            uses: self.uses,
        })
    }

    // Over the record at the walk's place, by its kind.
    #[tactic(auto, unfolding(crate::specs::Reading::step_at))]
    pub fn step(self, bytes: &[u8]) -> Result<Step, Refusal>
        requires { Sound bytes.now self }
        ensures { result ≡ step_at bytes.now self }
    {
        let at = self.at;
        let byte = bytes.get(at).ok_or(Why::Cut.at(at))?;
        match Kind::of(*byte).ok_or(Why::Kind.at(at))? {
            Kind::Task => Ok(Step::On(self.task_step(bytes)?)),
            Kind::Use => Ok(Step::On(self.use_step(bytes)?)),
            Kind::End => Ok(Step::Done(self.end_step(bytes)?)),
        }
    }
}
