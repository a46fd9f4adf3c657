// What is checked of each call: the place of the job that it is granted to, or why it is refused.
ghost use Rattle.std.specs.Prelude.{◌≡◌, ◌<◌, ◌≤◌, IfOk, IfErr, true, false, slice_index};
ghost use Rattle.protocol.specs.Fit.{fit};
ghost use Rattle.protocol.specs.Checks.{Call};
ghost use Rattle.arrays.specs.declared.denial.Denial.TheVariants.{Unfit};
ghost use Rattle.arrays.specs.Rulings.{Roomy};
ghost use Rattle.scheduler.specs.View.{table_of, state_of};
ghost use Rattle.scheduler.specs.Rulings.{Ruled, by_number, ruling_on};

use crate::{Denial, Number, Scheduler};
use arrays::Place;

impl Scheduler {
    // An unfit state is refused before all else.
    fn fitness(&self) -> Result<(), Denial>
        ensures fit { IfOk result (λ u. (fit (table_of self.now) (state_of self.now) ≡ true) × (self.now.tasks.count ≤ 32) × (self.now.sections.count ≤ 16)) }
        ensures unfit { IfErr result (λ d. (d ≡ Unfit) × (fit (table_of self.now) (state_of self.now) ≡ false)) }
    {
        if self.tasks.are_fit() & self.sections.are_fit(&self.tasks) {
            Ok(())
        } else {
            Err(Denial::Unfit)
        }
    }

    // The place of the running job, where it has this number: what is checked first of every call of its own.
    fn caller(&self, job: Number) -> Result<Place, Denial>
        ensures { Ruled self.now (by_number self.now job.priority job.serial) result }
    {
        self.fitness()?;
        let place = self.entries.running(&self.tasks).ok_or(Denial::Stranger)?;
        if !self.entries.has_number(&self.tasks, place, job) {
            return Err(Denial::Stranger);
        }
        Ok(place)
    }

    // A release finds the task of its priority.
    pub(crate) fn release_ruling(&self, priority: u8) -> Result<Place, Denial>
        ensures { Ruled self.now (ruling_on self.now (Call.release priority)) result }
    {
        self.fitness()?;
        self.entries
            .release_rule(self.tasks.place_of_priority(priority))
    }

    // A resume finds the job that sleeps under its number.
    pub(crate) fn resume_ruling(&self, job: Number) -> Result<Place, Denial>
        ensures { Ruled self.now (ruling_on self.now (Call.resume job.priority job.serial)) result }
    {
        self.fitness()?;
        self.entries
            .sleeper(&self.tasks, job)
            .ok_or(Denial::NoSleeper)
    }

    // The others find the running job: a lock,
    pub(crate) fn lock_ruling(&self, job: Number, resource: u8) -> Result<Place, Denial>
        ensures ruled { Ruled self.now (ruling_on self.now (Call.lock job.priority job.serial resource)) result }
        ensures room { IfOk result (λ i. Roomy self.now.entries self.now.sections.count resource i) }
    {
        let place = self.caller(job)?;
        self.entries
            .lock_rule(&self.tasks, self.sections.count, Some(place), resource)
    }

    // an unlock,
    pub(crate) fn unlock_ruling(&self, job: Number, resource: u8) -> Result<Place, Denial>
        ensures { Ruled self.now (ruling_on self.now (Call.unlock job.priority job.serial resource)) result }
    {
        let place = self.caller(job)?;
        self.entries.unlock_rule(Some(place), resource)
    }

    // a suspend,
    pub(crate) fn suspend_ruling(&self, job: Number) -> Result<Place, Denial>
        ensures ruled { Ruled self.now (ruling_on self.now (Call.suspend job.priority job.serial)) result }
        ensures room { IfOk result (λ i. slice_index self.now.entries.sleeps i < 255) }
    {
        let place = self.caller(job)?;
        self.entries.suspend_rule(&self.tasks, Some(place))
    }

    // and a complete.
    pub(crate) fn complete_ruling(&self, job: Number) -> Result<Place, Denial>
        ensures { Ruled self.now (ruling_on self.now (Call.complete job.priority job.serial)) result }
    {
        let place = self.caller(job)?;
        self.entries.complete_rule(Some(place))
    }
}
