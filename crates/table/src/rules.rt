// The rules on one record: its fields' ranges, its order among the others, the sum of a task's sections.
ghost use Rattle.std.specs.Prelude.{◌≡◌, ◌+◌, ◌*◌, ◌-◌, ◌^◌, ◌≤◌, ◌<◌, length};
ghost use Rattle.table.specs.Ranges.{task_fits, use_fits};
ghost use Rattle.table.specs.Rules.{task_rule, place_from, sum_after, use_rule};

use crate::fields::byte_at;
use crate::walk::Walk;
use crate::{Task, Use, Why};

// Each field of a task within its range.
pub fn task_fits(task: Task) -> bool
    ensures { result ≡ task_fits task }
{
    1 <= task.priority
        && task.setting < task.priority
        && task.sleeps <= 64
        && 1 <= task.run
        && task.sleep <= 1_000_000
        && (1 <= task.sleeps || task.sleep == 0)
        && task.run <= task.deadline
        && task.deadline <= task.period
        && task.period <= 1_000_000
}

// Each field of a use within its range.
pub fn use_fits(usage: Use) -> bool
    ensures { result ≡ use_fits usage }
{
    // `(1..=16).contains(..)` proves too, but reading a full table then takes 15 percent more instructions
    1 <= usage.resource
        && usage.resource <= 16
        && 1 <= usage.times
        && 1 <= usage.length
        && usage.length <= 1_000_000
}

// Whether a task may stand here, else why not.
#[tactic(auto, unfolding(crate::specs::Rules::task_rule))]
pub fn task_rule(walk: Walk, task: Task) -> Result<(), Why>
    ensures { result ≡ task_rule walk task }
{
    if 32 <= walk.tasks {
        return Err(Why::TooMany);
    }
    if 1 <= walk.uses || walk.last <= u32::from(task.priority) {
        return Err(Why::Order);
    }
    if !task_fits(task) {
        return Err(Why::Range);
    }
    Ok(())
}

// The place of the first task with this priority, from a place on. Where there is none it is the count, as in the definition, and not `None`.
pub fn place_of(bytes: &[u8], count: usize, first: usize, priority: u8) -> usize
    requires { (20 * count ≤ length bytes.now) × (first ≤ count) }
    ensures { result ≡ place_from (count - first) bytes.now first priority }
{
    // `(first..count).find(..)` proves too, but reading a full table then takes 5 percent more instructions
    for i in first..count {
        if byte_at(bytes, 20 * i + 1) == priority {
            return i;
        }
    }
    count
}

// What the sections of the task at a place add up to, this use with them.
#[tactic(auto, unfolding(crate::specs::Rules::sum_after))]
pub fn sum_after(walk: Walk, usage: Use, user: usize) -> u64
    requires { walk.sum < 2 ^ 32 }
    ensures { result ≡ sum_after walk usage user }
{
    let more = u64::from(usage.times) * u64::from(usage.length);
    if user == walk.user {
        walk.sum + more
    } else {
        more
    }
}

// Whether a use of the task at a place, whose run time is given, may stand here, else why not.
#[tactic(auto, unfolding(crate::specs::Rules::use_rule))]
pub fn use_rule(walk: Walk, usage: Use, user: usize, run: u32) -> Result<(), Why>
    requires { walk.sum < 2 ^ 32 }
    ensures { result ≡ use_rule walk usage user run }
{
    if walk.tasks <= user || (user == walk.user && u32::from(usage.resource) < walk.least) {
        return Err(Why::Order);
    }
    if !use_fits(usage) {
        return Err(Why::Range);
    }
    if u64::from(run) < sum_after(walk, usage, user) {
        return Err(Why::Sections);
    }
    Ok(())
}
