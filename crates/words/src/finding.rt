// Where words stand in a text, and what numbers they are.
ghost use Rattle.std.specs.Prelude.{◌≡◌, ◌≤◌, length, take_while};
ghost use Rattle.words.specs.Classes.{class_number, class_of};
ghost use Rattle.words.specs.Finding.{blank, in_class, run_end, same, with_digit, value_of};

// A class of bytes: blanks, what a word has, what a line has, digits.
#[derive(Clone, Copy)]
pub enum Class {
    Blank,
    Word,
    Line,
    Digit,
}

// Whether a byte is a blank: a space, a tab or a carriage return.
fn is_blank(byte: u8) -> bool
    ensures { result ≡ blank byte }
{
    matches!(byte, b' ' | b'\t' | b'\r')
}

impl Class {
    // The class with a number: 0 blanks, 1 what a word has, 2 what a line has, and digits from 3 on.
    pub fn of(number: u8) -> Class
        ensures { result ≡ class_of number }
    {
        match number {
            0 => Class::Blank,
            1 => Class::Word,
            2 => Class::Line,
            _ => Class::Digit,
        }
    }

    // Whether a byte is of the class.
    fn has(self, byte: u8) -> bool
        ensures { result ≡ in_class (class_number self) byte }
    {
        match self {
            Class::Blank => is_blank(byte),
            Class::Word => !(is_blank(byte) || byte == b'\n' || byte == b'#'),
            Class::Line => byte != b'\n',
            Class::Digit => byte.is_ascii_digit(),
        }
    }

    // How many bytes of the class a text starts with.
    fn lead(self, text: &[u8]) -> usize
        ensures value { result ≡ length (take_while (in_class (class_number self)) text.now) }
        ensures upper_bound { result ≤ length text.now }
    {
        text.iter().take_while(|byte| self.has(**byte)).count()
    }
}

// The first place, from a place on, whose byte is not of a class, or the end of the text.
#[tactic(auto, using(std::proofs::lemmas::Grind::common_steps, crate::proofs::Words::lead_taken, crate::proofs::Words::lead_past))]
pub fn run_end(text: &[u8], at: usize, class: Class) -> usize
    ensures value { result ≡ run_end text.now at (class_number class) }
    ensures upper_bound { at ≤ length text.now → result ≤ length text.now }
{
    match text.get(at..) {
        Some(rest) => at + class.lead(rest),
        None => at,
    }
}

// Whether two texts are the same.
#[tactic(auto, using(crate::proofs::Words::same_slices))]
pub fn same(left: &[u8], right: &[u8]) -> bool
    ensures { result ≡ same left.now right.now }
{
    left == right
}

// A number so far, and its next digit.
fn with_digit(value: u32, byte: u8) -> u32
    ensures { result ≡ with_digit value byte }
{
    if value > 1_000_000 {
        return value;
    }
    10 * value + u32::from(byte.saturating_sub(b'0'))
}

// The value of a number; for one above 1,000,000, some number above that.
pub fn value(word: &[u8]) -> u32
    ensures { result ≡ value_of word.now }
{
    word.iter().fold(0, |value, byte| with_digit(value, *byte))
}
