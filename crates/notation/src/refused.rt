// Why the reader refuses a record, in words of its line.
ghost use Rattle.std.specs.Prelude.{◌*◌, ◌≤◌, length};

use crate::causes::Cause;
use crate::kinds::Kind;
use crate::reasons::{Reason, because, range_reason};
use table::{Why, byte_at, word_at};

// A refused record: the bytes that it is the last of, where it starts, the tasks before it, and why.
#[derive(Clone, Copy)]
pub struct Refused<'a> {
    pub records: &'a [u8],
    pub at: usize,
    pub tasks: usize,
    pub why: Why,
    pub ghost near: { at ≤ 4800 },
    pub ghost tasks_within: { 20 * tasks ≤ length records.now },
}

impl Refused<'_> {
    ghost use Rattle.std.specs.Prelude.{◌≡◌};
    ghost use Rattle.table.specs.Replies.{why_number};
    ghost use Rattle.notation.specs.Reasons.{reason_of, task_reason, use_reason, reason_at};

    // Why a task record is refused.
    #[tactic(auto, unfolding(crate::specs::Reasons::task_reason))]
    fn task_reason(&self) -> Reason
        ensures { reason_of result ≡ task_reason self.now.records.now self.now.at self.now.tasks (why_number self.now.why) }
    {
        let priority = u32::from(byte_at(self.records, self.at + 1));
        match self.why {
            Why::TooMany => because(Cause::OneTooMany, priority, 32),
            Why::Order if 20 * self.tasks < self.at => {
                let last = byte_at(self.records, self.at.saturating_sub(7));
                because(Cause::AfterUse, priority, u32::from(last))
            }
            Why::Order => {
                let last = byte_at(self.records, self.at.saturating_sub(19));
                because(Cause::NotBelow, priority, u32::from(last))
            }
            _ => range_reason(table::task_at(self.records, self.at)),
        }
    }

    // Why a use record is refused.
    #[tactic(auto, unfolding(crate::specs::Reasons::use_reason))]
    fn use_reason(&self) -> Reason
        ensures { reason_of result ≡ use_reason self.now.records.now self.now.at self.now.tasks (why_number self.now.why) }
    {
        let priority = byte_at(self.records, self.at + 1);
        let user = table::place_of(self.records, self.tasks, 0, priority);
        let told = u32::from(priority);
        match self.why {
            Why::Sections => because(Cause::PastRun, told, word_at(self.records, 20 * user + 4)),
            _ if self.tasks <= user => because(Cause::OfNoTask, told, told),
            _ => because(
                Cause::OutOfOrder,
                u32::from(byte_at(self.records, self.at + 2)),
                told,
            ),
        }
    }

    // Why the record is refused, by its kind.
    pub fn reason(&self) -> Reason
        ensures { reason_of result ≡ reason_at self.now.records.now self.now.at self.now.tasks (why_number self.now.why) }
    {
        if byte_at(self.records, self.at) == Kind::Task.number() {
            self.task_reason()
        } else {
            self.use_reason()
        }
    }
}
