// A place of a text, from which it is read on.
ghost use Rattle.std.specs.Prelude.{◌≤◌, length};

use words::{Class, run_end};

// A text, and a place that lies within it.
#[derive(Clone, Copy)]
pub struct Cursor<'a> {
    pub text: &'a [u8],
    pub at: usize,
    pub ghost within: { at ≤ length text.now },
}

// Where a word stands; an empty one where the line ends.
#[derive(Clone, Copy)]
pub struct Span {
    pub start: usize,
    pub end: usize,
}

impl Cursor<'_> {
    ghost use Rattle.notation.specs.Taking.{Found};

    // The next word of the line.
    pub fn next_word(&self) -> Span
        ensures { Found self.now.text.now self.now.at result.start result.end }
    {
        let start = run_end(self.text, self.at, Class::Blank);
        let end = run_end(self.text, start, Class::Word);
        Span { start, end }
    }
}
