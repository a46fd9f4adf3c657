// One task: its right side from C + S on, until it meets the length or passes the deadline.
ghost use Rattle.std.specs.Prelude.{◌≤◌};
ghost use Rattle.rounds.specs.Rounds.{reply};
ghost use Rattle.analysis.specs.Seen.{equations_in};
ghost use Rattle.analysis.specs.Solving.{Solvable, Solved};

use crate::Spent;
use crate::turns::Rounds;
use equations::{KeptUses, Query};

// What the solver answers for a task under a vector: its bound, if it has one; and the evaluations made so far.
#[derive(Clone, Copy)]
pub struct Reply {
    pub bound: Option<u64>,
    pub evaluations: u64,
}

impl Rounds<'_, '_, '_> {
    // The task of the query, with the uses that are kept of it, under a vector, with so many evaluations made.
    pub fn solve(
        &self,
        vector: &[u64],
        kept: &KeptUses,
        query: Query,
        made: u64,
    ) -> Result<Reply, Spent>
        requires solvable { Solvable self.now.listed.equations vector.now kept.now query }
        requires made_le_allowance { made ≤ self.now.allowance }
        ensures { Solved self.now.allowance (reply (equations_in self.now.listed.equations) query.task vector.now made) result }
    {
        let task = self.listed.equations.table.task(query.task);
        let deadline = u64::from(task.deadline);
        let mut t = u64::from(task.run) + u64::from(task.sleep);
        let mut evaluations = made;
        // no index is counted: t climbs until it stands or passes the deadline, and each step has a side of its own
        while t <= deadline {
            if self.allowance <= evaluations {
                return Err(Spent);
            }
            let side = self.listed.equations.right_side(vector, kept, query, t);
            evaluations += 1;
            if side == t {
                return Ok(Reply {
                    bound: Some(t),
                    evaluations,
                });
            }
            t = side;
        }
        Ok(Reply {
            bound: None,
            evaluations,
        })
    }
}
