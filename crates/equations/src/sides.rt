// The right side itself.
ghost use Rattle.std.specs.Prelude.{◌≡◌, ◌≤◌};
ghost use Rattle.equations.specs.Seen.{seen};
ghost use Rattle.equations.specs.Equations.{right_side};
ghost use Rattle.equations.specs.Ready.{Asking};

use crate::{At, Equations, KeptUses, Query};

impl Equations<'_, '_> {
    // The right side of a task's equation at t, under a vector, with the uses that are kept of it.
    pub fn right_side(&self, vector: &[u64], kept: &KeptUses, query: Query, t: u64) -> u64
        requires { Asking self.now.table.bytes.now self.now.table.shape self.now.settings.now vector.now kept.now.words kept.now.count query t }
        ensures { (result ≡ right_side (seen self.now) query.task vector.now t) × (result ≤ 100000000000000) }
    {
        let task = self.table.task(query.task);
        let sums = self.two_sums(vector, kept, query.sleeps, t);
        let added = self.additions(
            vector,
            At {
                task: query.task,
                length: t,
            },
        );
        let blocking = sums.more.max(query.extra + sums.less);
        u64::from(task.run) + u64::from(task.sleep) + blocking + added
    }
}
