// What is worked out of a table, or of a task, once.
ghost use Rattle.std.specs.Prelude.{◌≡◌, ◌+◌, ◌-◌, ◌*◌, ◌≤◌, ◌<◌, max, cond, ltb};
ghost use Rattle.table.specs.WellFormed.{use_of};
ghost use Rattle.equations.specs.Ceilings.{CeilingsAre};
ghost use Rattle.equations.specs.Ready.{UsesFrom, reaching_length, Longest, QueryIs};

use crate::keeps::Span;
use crate::{KeptUses, Listed, Query};
use table::Table;

// The ceiling of each resource, by its number.
pub fn ceilings(table: &Table) -> [u8; 32]
    ensures { CeilingsAre table.now.bytes.now table.now.shape result }
{
    let mut found = [0u8; 32];
    for k in 0..table.shape.uses {
        let usage = table.usage(k);
        let resource = usize::from(usage.resource);
        found[resource] = found[resource].max(usage.priority);
    }
    found
}

// A number of uses, with so many more where the last of these has at least a priority.
fn beyond(table: &Table, least: u64, low: usize, more: usize) -> usize
    requires { (1 ≤ more) × (low + more ≤ table.now.shape.uses) }
    ensures { result ≡ cond (ltb (use_of table.now.bytes.now table.now.shape.uses_at (low + more - 1)).priority least) low (low + more) }
{
    if u64::from(table.usage(low + more - 1).priority) < least {
        return low;
    }
    low + more
}

// How many uses are of tasks with at least this priority: they stand first. Found by halves.
fn uses_from(table: &Table, least: u64) -> usize
    ensures { UsesFrom table.now.bytes.now table.now.shape least result }
{
    let mut low = 0;
    let mut size = table.shape.uses;
    // halves of what is left, which no `for` counts; `partition_point` of std wants a slice of uses, and these are bytes
    while 0 < size {
        let half = (size + 1) / 2;
        low = beyond(table, least, low, half);
        size -= half;
    }
    low
}

impl Listed<'_, '_, '_> {
    // The length of use k, where its resource's ceiling is not below the priority, else 0.
    fn reaching_length(&self, k: usize, priority: u8) -> u64
        requires { k < self.now.equations.table.shape.uses }
        ensures { result ≡ reaching_length self.now.equations.table.bytes.now self.now.ceilings.now self.now.equations.table.shape.uses_at priority k }
    {
        let usage = self.equations.table.usage(k);
        if priority <= self.ceilings[usize::from(usage.resource)] {
            return u64::from(usage.length);
        }
        0
    }

    // B0 of the task with this priority: the largest reaching length from a use on.
    fn extra(&self, priority: u8, first: usize) -> u64
        requires { first ≤ self.now.equations.table.shape.uses }
        ensures { Longest self.now.equations.table.bytes.now self.now.ceilings.now self.now.equations.table.shape.uses_at priority first self.now.equations.table.shape.uses result }
    {
        let mut best: u64 = 0;
        for k in first..self.equations.table.shape.uses {
            best = best.max(self.reaching_length(k, priority));
        }
        best
    }

    // What is worked out once of the task at a place. The uses that can block it are kept, as far as its right sides look at them.
    pub fn asked(&self, kept: &mut KeptUses, place: usize) -> Query
        requires { place < self.now.equations.table.shape.tasks }
        ensures { QueryIs self.now.equations.table.bytes.now self.now.equations.table.shape self.now.equations.settings.now place kept.new.words kept.new.count result }
    {
        let table = &self.equations.table;
        let task = table.task(place);
        let first = uses_from(table, u64::from(task.priority));
        let end = uses_from(table, u64::from(self.equations.settings[place]) + 1);
        let span = Span {
            priority: task.priority,
            first,
            end,
            most: usize::from(task.sleeps) + 1,
        };
        kept.keep_all(self, span);
        Query {
            task: place,
            sleeps: task.sleeps,
            extra: self.extra(task.priority, first.max(end)),
        }
    }
}
