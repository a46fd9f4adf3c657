// How a call ends: it is refused, or settled.
ghost use Rattle.std.specs.Prelude.{◌≡◌, ◌≢◌, ◌≤◌};
ghost use Rattle.protocol.specs.Step.{number_at};
ghost use Rattle.arrays.specs.declared.denial.Denial.TheVariants.{Unfit};
ghost use Rattle.arrays.specs.Places.{place_of};
ghost use Rattle.scheduler.specs.View.{Sized, table_of, entry_of};
ghost use Rattle.scheduler.specs.Replies.{running_of, runs, refused_reply, settled_reply};

use crate::{Denial, Number, Reply, Scheduler};
use arrays::Place;

impl Scheduler {
    // The number of the latest job at a place.
    fn number_at(&self, place: &Option<Place>) -> Option<Number>
        ensures { result ≡ running_of (number_at (table_of self.now) (entry_of self.now) (place_of place.now)) }
    {
        place
            .as_ref()
            .map(|place| self.entries.number_at(&self.tasks, *place))
    }

    // The number of the running job.
    fn running(&self) -> Option<Number>
        requires { self.now.tasks.count ≤ 32 }
        ensures { result ≡ runs self.now }
    {
        self.number_at(&self.entries.running(&self.tasks))
    }

    // The answer of a refused call: who runs, nobody where the state is unfit, and the state as it is. Each call matches on its ruling and hands a
    // refusal here: a body by `?` would answer the state in a `Result`, and each call would need a second function to make the reply of it.
    pub(crate) fn refused(self, denial: Denial) -> Reply
        requires { denial ≢ Unfit → self.tasks.count ≤ 32 }
        ensures { result ≡ refused_reply self denial }
    {
        let running = match denial {
            Denial::Unfit => None,
            _ => self.running(),
        };
        Reply {
            refusal: Some(denial),
            running,
            state: self,
        }
    }

    // The answer of an accepted call, after its stores: who runs now, and that job is started.
    pub(crate) fn settled(mut self) -> Reply
        requires { self.tasks.count ≤ 32 }
        ensures told { result ≡ settled_reply self }
        ensures sized { Sized self }
    {
        let place = self.entries.running(&self.tasks);
        let running = self.number_at(&place);
        self.entries.start(place);
        Reply {
            refusal: None,
            running,
            state: self,
        }
    }
}
