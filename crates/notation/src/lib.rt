// The text form of a table: the text of a table's bytes, and the bytes of a text.
#![tactic(auto, using(words::proofs::Pages::pages))]

ghost use Rattle.std.specs.Prelude.{◌≡◌, ◌++◌, length, drop};
ghost use Rattle.io.specs.Counts.{IsPrefixLen};
ghost use Rattle.words.specs.Text.{fitted};
ghost use Rattle.words.specs.Writing.{Put};
ghost use Rattle.notation.specs.Numbered.{fault_of, packing_of};
ghost use Rattle.notation.specs.Faults.{fault_line, pack_printed};
ghost use Rattle.notation.specs.Packing.{pack_into};
ghost use Rattle.notation.specs.Showing.{shown};

mod causes;
mod columns;
mod cursor;
mod faults;
mod kinds;
mod reasons;
mod refused;
mod rows;
mod showing;
mod stepping;

pub use causes::Cause;
pub use columns::Column;
use words::Page;

// A fault of a text: its line, its cause, and what that speaks of: a column, the place of a word, two values. They stand side by side, 0 where the
// cause speaks of none, since `fault_line` answers for every fault.
#[derive(Clone, Copy, PartialEq, Eq, Debug)]
pub struct Fault {
    pub line: usize,
    pub cause: Cause,
    pub column: Option<Column>,
    pub at: usize,
    pub value: u32,
    pub other: u32,
}

// Packs a text: the bytes of its table at the front of a buffer, and how many they are; or its first fault, which leaves every byte.
pub fn pack(text: &[u8], out: &mut [u8]) -> Result<usize, Fault>
    ensures value { packing_of result ≡ (pack_into (length out.old) text.now).packing }
    ensures out_after { out.new ≡ (pack_into (length out.old) text.now).bytes
        ++ drop (length (pack_into (length out.old) text.now).bytes) out.old }
{
    let mut records = [0u8; 4800];
    let count = stepping::pack_text(text, &mut records)?;
    if out.len() < count {
        return Err(stepping::whole(1, Cause::NoRoom));
    }
    out[..count].copy_from_slice(&records[..count]);
    Ok(count)
}

// The line of a fault, at the front of a buffer; the answer is how long it is. A buffer of less than 256 bytes stays as it is, and the answer is 0.
#[tactic(auto, using(words::proofs::Pages::pages), unfolding(words::specs::Pages::sheet, words::specs::Sheet::onward))]
pub fn fault_line(text: &[u8], fault: Fault, out: &mut [u8]) -> usize
    ensures put { Put out.old 0 (fitted 256 (length out.old) (fault_line text.now (fault_of fault))) out.new result }
    ensures prefix_len { IsPrefixLen result out.new }
{
    if out.len() < 256 {
        return 0;
    }
    let mut page = Page::new(out);
    faults::put_fault(&mut page, text, fault);
    page.len()
}

// What the pack program prints of a text: the bytes of its table or the line of its first fault, at the front of a buffer; the answer is how
// long it is. A buffer of less than 8,192 bytes stays as it is, and the answer is 0.
pub fn pack_reply(text: &[u8], out: &mut [u8]) -> usize
    ensures put { Put out.old 0 (fitted 8192 (length out.old) (pack_printed text.now)) out.new result }
    ensures prefix_len { IsPrefixLen result out.new }
{
    if out.len() < 8192 {
        return 0;
    }
    match pack(text, out) {
        Ok(count) => count,
        Err(fault) => fault_line(text, fault, out),
    }
}

// The text of a table, or the line of its refusal, at the front of a buffer; the answer is how long it is. A buffer of less than 262,144 bytes
// stays as it is, and the answer is 0.
#[tactic(auto, using(words::proofs::Pages::pages), unfolding(words::specs::Pages::sheet, words::specs::Sheet::onward))]
pub fn show(bytes: &[u8], out: &mut [u8]) -> usize
    ensures put { Put out.old 0 (fitted 262144 (length out.old) (shown bytes.now)) out.new result }
    ensures prefix_len { IsPrefixLen result out.new }
{
    if out.len() < 262144 {
        return 0;
    }
    let mut page = Page::new(out);
    showing::put_shown(&mut page, bytes);
    page.len()
}
