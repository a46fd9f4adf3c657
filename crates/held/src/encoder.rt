// The bytes of a held table, record by record. A count above its limit becomes one empty record more, which the reader then refuses.
ghost use Rattle.std.specs.Prelude.{◌≡◌, ◌+◌, ◌*◌, ◌≤◌, ◌++◌, length, take};
ghost use Rattle.held.specs.Writing.{records_bytes, part_bytes, encode};

use crate::Table;
use crate::record::Record;

// The records of a list, one after the other, from a place on.
fn put_all<R: Record>(buffer: &mut [u8], start: usize, records: &[R])
    requires { start + R.SIZE * length records.now ≤ length buffer.old }
    ensures { take (start + R.SIZE * length records.now) buffer.new
        ≡ take start buffer.old ++ records_bytes R.record_bytes R.empty records.now (length records.now) }
{
    for (i, record) in records.iter().enumerate() {
        record.put(buffer, start + R::SIZE * i);
    }
}

// The records that count, from a place on, and an empty one where the count is above the limit, which is how many there are. Answers the
// place past them.
fn put_part<R: Record>(buffer: &mut [u8], start: usize, records: &[R], count: usize) -> usize
    requires { start + R.SIZE * (length records.now + 1) ≤ length buffer.old }
    ensures within { result ≤ start + R.SIZE * (length records.now + 1) }
    ensures front { take result buffer.new
        ≡ take start buffer.old ++ part_bytes R.record_bytes R.empty (length records.now) records.now count }
{
    let first = count.min(records.len());
    let end = start + R::SIZE * first;
    put_all(buffer, start, &records[..first]);
    R::none().put(buffer, end);
    if records.len() < count {
        end + R::SIZE
    } else {
        end
    }
}

// The bytes of a whole table at the start of the buffer, and how many they are.
pub fn encode(table: &Table, buffer: &mut [u8; 4765]) -> usize
    ensures { (result ≤ 4765) × (take result buffer.new ≡ encode table.now) }
{
    let start = put_part(buffer, 0, &table.tasks, table.task_count);
    let end = put_part(buffer, start, &table.uses, table.use_count);
    buffer[end] = 3;
    end + 1
}
