// What is told of a record that the reader refuses.
ghost use Rattle.std.specs.Prelude.{◌≡◌};
ghost use Rattle.notation.specs.Causes.{cause_number};
ghost use Rattle.notation.specs.Reasons.{reason, reason_of, range_reason};

use crate::causes::Cause;
use table::Task;

// The cause, and the two values that show it.
#[derive(Clone, Copy)]
pub struct Reason {
    pub cause: Cause,
    pub value: u32,
    pub other: u32,
}

// A reason with two values.
pub fn because(cause: Cause, value: u32, other: u32) -> Reason
    ensures { reason_of result ≡ reason (cause_number cause) value other }
{
    Reason {
        cause,
        value,
        other,
    }
}

// What is wrong with the fields of a task.
#[tactic(auto, unfolding(crate::specs::Reasons::range_reason))]
pub fn range_reason(task: Task) -> Reason
    ensures { reason_of result ≡ range_reason task }
{
    if task.priority <= task.setting {
        return because(
            Cause::SettingHigh,
            u32::from(task.setting),
            u32::from(task.priority),
        );
    }
    if task.sleeps == 0 && 0 < task.sleep {
        return because(Cause::Sleepless, task.sleep, 0);
    }
    if task.deadline < task.run {
        return because(Cause::RunHigh, task.run, task.deadline);
    }
    because(Cause::DeadlineHigh, task.deadline, task.period)
}
