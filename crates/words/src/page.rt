// A page: a lent buffer, and how far text was put into it.
ghost use Rattle.std.specs.Prelude.{◌≡◌, ◌≤◌, length, take, drop};
ghost use Rattle.words.specs.Finding.{printable};

use table::Refuses;

// A lent buffer, and the place up to which text was put. It has no model: with one a caller is not told what the buffer holds in the end.
#[derive(Drop)]
pub struct Page<'a> {
    out: &'a mut [u8],
    at: usize,
    ghost within: { at ≤ length out.now },
}

// A byte as it may be printed.
fn printable(byte: u8) -> u8
    ensures { result ≡ printable byte }
{
    if byte.is_ascii_graphic() { byte } else { b'?' }
}

impl<'a> Page<'a> {
    ghost use Rattle.words.specs.Text.{labelled};
    ghost use Rattle.words.specs.Finding.{printables, found_text};
    ghost use Rattle.words.specs.Refusing.{refused_line};
    ghost use Rattle.words.specs.Sheet.{blank};
    ghost use Rattle.words.specs.Pages.{sheet, room, Puts};

    // A buffer in which nothing was put.
    #[tactic(auto, unfolding(crate::specs::Pages::sheet))]
    pub fn new(out: &'a mut [u8]) -> Page<'a>
        ensures { sheet result ≡ blank out.old out.entry.ghost_name }
    {
        Page { out, at: 0 }
    }

    // A buffer whose bytes before a place were put.
    #[tactic(auto, unfolding(crate::specs::Pages::sheet))]
    pub fn after(out: &'a mut [u8], at: usize) -> Page<'a>
        requires { at ≤ length out.old }
        ensures { sheet result ≡ record { put = take at out.old; rest = drop at out.old; name = out.entry.ghost_name } }
    {
        Page { out, at }
    }

    // How many bytes were put.
    #[tactic(auto, unfolding(crate::specs::Pages::sheet))]
    pub fn len(&self) -> usize
        ensures { result ≡ length (sheet self.now).put }
    {
        self.at
    }

    // Puts a text.
    #[tactic(auto, unfolding(crate::specs::Pages::sheet, crate::specs::Sheet::onward))]
    pub fn text(&mut self, text: &[u8])
        requires { length text.now ≤ room self.old }
        ensures { Puts self.old text.now self.new }
    {
        let end = self.at + text.len();
        self.out[self.at..end].copy_from_slice(text);
        self.at = end;
    }

    // Puts a word and a number after it.
    #[tactic(auto, using(crate::proofs::Pages::pages, crate::proofs::Texts::decimal_spelled))]
    pub fn number(&mut self, label: &[u8], number: u64)
        requires { length (labelled label.now number) ≤ room self.old }
        ensures { Puts self.old (labelled label.now number) self.new }
    {
        let mut digits = [0; 20];
        let count = io::decimal(number, &mut digits);
        self.text(label);
        self.text(&digits[..count]);
    }

    // Puts the bytes of a word as they may be printed.
    #[tactic(auto, using(crate::proofs::Pages::pages, crate::proofs::Words::printables_none, crate::proofs::Words::printables_more, crate::proofs::Words::printables_front))]
    fn printables(&mut self, word: &[u8])
        requires { length word.now ≤ room self.old }
        ensures { Puts self.old (printables word.now) self.new }
    {
        for byte in word {
            self.text(&[printable(*byte)]);
        }
    }

    // Puts what was found where a word was expected.
    #[tactic(auto, using(crate::proofs::Pages::pages, crate::proofs::Words::printables_length, crate::proofs::Words::found_none, crate::proofs::Words::found_whole, crate::proofs::Words::found_front))]
    pub fn found(&mut self, word: &[u8])
        requires { length (found_text word.now) ≤ room self.old }
        ensures { Puts self.old (found_text word.now) self.new }
    {
        if word.is_empty() {
            self.text(b"the end of the line");
        } else if word.len() <= 24 {
            self.printables(word);
        } else {
            self.printables(&word[..24]);
            self.text(b"...");
        }
    }

    // Puts the line of a refusal. A `write!` of it says what is put where the answer is Ok, but not that it is Ok on a page with room.
    pub fn refusal<R: Refuses>(&mut self, refusal: R)
        requires { length (refused_line (R.numbered refusal) (R.placed refusal)) ≤ room self.old }
        ensures { Puts self.old (refused_line (R.numbered refusal) (R.placed refusal)) self.new }
    {
        self.number(b"refused ", u64::from(refusal.number()));
        self.number(b" at ", refusal.place() as u64);
        self.text(b"\n");
    }
}
