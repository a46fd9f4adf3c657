// Checksums.
use analysis::{Analysis, TaskAnswer};
use scheduler::{Denial, Number, refusal_number};
use table::Refusal;

// Numbers below this fit into 40 bits.
const LOW: u64 = 1 << 40;

// A checksum: it starts at 0, and each number x makes it 257 times its low 40 bits, and those of x. That of `harness` divides by a prime number
// instead: this one takes fewer instructions, since they are counted with those of what is measured.
#[derive(Clone, Copy, Default)]
pub struct Checksum {
    pub value: u64,
}

impl Checksum {
    // That after one number more.
    pub fn with<N: Into<u64>>(self, number: N) -> Checksum {
        Checksum {
            value: self.value % LOW * 257 + number.into() % LOW,
        }
    }

    // That after the number of a table's refusal, 0 where it is accepted.
    pub fn with_refusal(self, refusal: Option<Refusal>) -> Checksum {
        self.with(refusal.map_or(0, |refusal| refusal.why.number()))
    }

    // That after a task's answer.
    fn with_answer(self, answer: TaskAnswer) -> Checksum {
        match answer {
            TaskAnswer::Bound(value) => self.with(value),
            TaskAnswer::Conditional(value) => self.with(1u64).with(value),
            TaskAnswer::Nothing => self.with(0u64),
        }
    }

    // That after an analysis: refusal, place, verdict, evaluations and each task's answer. The analysis is passed by value: by reference each takes
    // some 40 to 90 instructions more, 3,053 instead of 2,967 with 3 tasks.
    pub fn with_analysis(self, analysis: Analysis) -> Checksum {
        let place = analysis.refusal.map_or(0, |refusal| refusal.place);
        let mut sum = self
            .with_refusal(analysis.refusal)
            .with(place as u64)
            .with(analysis.verdict)
            .with(analysis.evaluations);
        for i in 0..analysis.tasks {
            sum = sum.with_answer(analysis.answer(i));
        }
        sum
    }

    // That after a call's refusal and running job.
    pub fn with_reply(self, refusal: Option<Denial>, running: Option<Number>) -> Checksum {
        let sum = self.with(refusal_number(refusal));
        match running {
            None => sum.with(16777216u64),
            Some(job) => sum.with(u64::from(job.priority) * 65536 + u64::from(job.serial)),
        }
    }
}
