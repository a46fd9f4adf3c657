// What the rounds begin with: the settings that the bytes name, and the deadlines.
ghost use Rattle.std.specs.Prelude.{◌≡◌, length};
ghost use Rattle.searches.specs.Indexed.{every};
ghost use Rattle.equations.specs.View.{own_settings};
ghost use Rattle.analysis.specs.Seen.{equations_in};
ghost use Rattle.analysis.specs.Rounding.{deadline_of, Marks, Settled};

use crate::Spent;
use crate::turns::Rounds;
use table::Table;

// The settings that the bytes name, 0 past the tasks.
pub fn own_settings(table: &Table) -> [u8; 32]
    ensures { result ≡ own_settings table.now.bytes.now table.now.shape.tasks }
{
    let mut settings = [0u8; 32];
    // `array::from_fn` leaves the fact of each element open
    for i in 0..table.shape.tasks {
        settings[i] = table.task(i).setting;
    }
    settings
}

// The vector at the deadlines.
pub fn deadlines(table: &Table, vector: &mut [u64])
    requires { length vector.old ≡ table.now.shape.tasks }
    ensures { vector.new ≡ every (deadline_of table.now.bytes.now) (length vector.old) 0 }
{
    for (i, value) in vector.iter_mut().enumerate() {
        *value = u64::from(table.task(i).deadline);
    }
}

impl Rounds<'_, '_, '_> {
    // The rounds, from the deadlines on. Vector and marks are lent apart: of a struct of two `&mut` a caller is not told what they hold in the end.
    pub fn settle(&self, vector: &mut [u64], bounds: &mut [bool; 32]) -> Result<u64, Spent>
        requires vector_len { length vector.old ≡ self.now.listed.equations.table.shape.tasks }
        requires marks { Marks self.now.listed.equations.table.shape.tasks bounds.old }
        ensures { Settled self.now.listed.equations.table.shape.tasks self.now.allowance (equations_in self.now.listed.equations) vector.new bounds.new result }
    {
        deadlines(&self.listed.equations.table, vector);
        self.all_rounds(vector, bounds)
    }
}
