// Rounds over the tasks by falling priority, a smaller bound replacing the value at once.
ghost use Rattle.std.specs.Prelude.{◌≡◌, ◌≤◌, ◌<◌, length};
ghost use Rattle.std.specs.List.{list_all};
ghost use Rattle.rounds.specs.OnWay.{OnWay};
ghost use Rattle.rounds.specs.Rounds.{begin};
ghost use Rattle.analysis.specs.Seen.{equations_in};
ghost use Rattle.analysis.specs.Rounding.{Lowers, Marks, Rounded, Settled, progress};

use crate::Spent;
use equations::{KeptUses, Listed};

// What the rounds are about: the equations with the table's ceilings, and how many evaluations are allowed.
#[derive(Clone, Copy)]
pub struct Rounds<'a, 'b, 'c> {
    pub listed: Listed<'a, 'b, 'c>,
    pub allowance: u64,
}

// Whether a round changed a value, with the evaluations so far.
#[derive(Clone, Copy)]
pub enum Round {
    Changed(u64),
    Still(u64),
}

// Whether each of some tasks is marked as one with a bound.
pub fn all_bounded(bounds: &[bool]) -> bool
    ensures { result ≡ list_all (λ b. b) bounds.now }
{
    bounds.iter().all(|bound| *bound)
}

// A smaller bound replaces the value at a place. Answers whether it does.
fn lower(vector: &mut [u64], i: usize, bound: Option<u64>) -> bool
    requires { i < length vector.old }
    ensures { Lowers vector.old i bound vector.new result }
{
    match bound {
        Some(bound) if bound < vector[i] => {
            vector[i] = bound;
            true
        }
        _ => false,
    }
}

impl Rounds<'_, '_, '_> {
    // A round: a turn for each task, by falling priority. It also marks which tasks have a bound.
    pub fn one_round(
        &self,
        vector: &mut [u64],
        bounds: &mut [bool; 32],
        made: u64,
    ) -> Result<Round, Spent>
        requires on_way { OnWay (equations_in self.now.listed.equations) vector.old }
        requires made_le_allowance { made ≤ self.now.allowance }
        requires marks { Marks self.now.listed.equations.table.shape.tasks bounds.old }
        ensures { Rounded self.now.listed.equations.table.shape.tasks self.now.allowance (equations_in self.now.listed.equations) (progress vector.old made)
            vector.new bounds.new result }
    {
        let mut evaluations = made;
        let mut changed = false;
        let mut kept = KeptUses::new();
        for i in 0..self.listed.equations.table.shape.tasks {
            let query = self.listed.asked(&mut kept, i);
            let reply = self.solve(vector, &kept, query, evaluations)?;
            evaluations = reply.evaluations;
            bounds[i] = reply.bound.is_some();
            changed |= lower(vector, i, reply.bound);
        }
        if changed {
            Ok(Round::Changed(evaluations))
        } else {
            Ok(Round::Still(evaluations))
        }
    }

    // Rounds from the deadlines until one changes nothing. Answers the evaluations.
    pub fn all_rounds(&self, vector: &mut [u64], bounds: &mut [bool; 32]) -> Result<u64, Spent>
        requires at_deadlines { progress vector.old 0 ≡ begin (equations_in self.now.listed.equations) }
        requires marks { Marks self.now.listed.equations.table.shape.tasks bounds.old }
        ensures { Settled self.now.listed.equations.table.shape.tasks self.now.allowance (equations_in self.now.listed.equations) vector.new bounds.new result }
    {
        let mut made = 0;
        // no index is counted: how many rounds change a value is not known beforehand
        loop {
            match self.one_round(vector, bounds, made)? {
                Round::Changed(evaluations) => made = evaluations,
                Round::Still(evaluations) => return Ok(evaluations),
            }
        }
    }
}
