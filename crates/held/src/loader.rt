// Filling a held table from a table's bytes.
ghost use Rattle.std.specs.Prelude.{◌≡◌, ℕ, ◌+◌, ◌*◌, ◌≤◌, ◌<◌, ◌^◌, length};
ghost use Rattle.searches.specs.Indexed.{every};
ghost use Rattle.held.specs.Loading.{filled_by};

use crate::Table;
use crate::record::Record;
use table::{Shape, no_task, no_use};

// The records that stand one after the other from a place on, as many as there are places for them.
fn load_all<R: Record>(bytes: &[u8], start: usize, out: &mut [R])
    requires { start + R.SIZE * length out.old < 2 ^ 64 }
    ensures { out.new ≡ every (λ (i : ℕ). R.read_at bytes.now (start + R.SIZE * i)) (length out.old) 0 }
{
    for (i, slot) in out.iter_mut().enumerate() {
        *slot = R::read(bytes, start + R::SIZE * i);
    }
}

// A table of a shape, with zeros past its counts.
pub fn filled(bytes: &[u8], shape: Shape) -> Table
    requires { (shape.tasks ≤ 32) × (shape.uses_at ≤ 640) × (shape.uses ≤ 512) }
    ensures { result ≡ filled_by bytes.now shape.tasks shape.uses_at shape.uses }
{
    let mut tasks = [no_task(); 32];
    let mut uses = [no_use(); 512];
    load_all(bytes, 0, &mut tasks[..shape.tasks]);
    load_all(bytes, shape.uses_at, &mut uses[..shape.uses]);
    Table {
        tasks,
        task_count: shape.tasks,
        uses,
        use_count: shape.uses,
    }
}
