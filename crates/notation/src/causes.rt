// What is at fault in a text.
ghost use Rattle.std.specs.Prelude.{◌≡◌};
ghost use Rattle.notation.specs.Causes.{cause_number, cause_of};

// The causes of a fault, with their numbers in docs/NOTATION.md: 1 to 6 a word of a line, 7 to 16 a rule on records, 17 to 19 the whole. 0 is
// none that a text has: `fault_line` tells one of the word alone.
#[derive(Clone, Copy, PartialEq, Eq, Debug)]
pub enum Cause {
    Unknown = 0,
    FirstWord = 1,
    OtherName = 2,
    NoNumber = 3,
    BelowRange = 4,
    AboveRange = 5,
    MoreWords = 6,
    SettingHigh = 7,
    Sleepless = 8,
    RunHigh = 9,
    DeadlineHigh = 10,
    OneTooMany = 11,
    AfterUse = 12,
    NotBelow = 13,
    OfNoTask = 14,
    OutOfOrder = 15,
    PastRun = 16,
    NoTask = 17,
    TooLong = 18,
    NoRoom = 19,
}

impl Cause {
    // The cause of a number; from 20 on it is the last, as `fault_line` tells these numbers.
    pub fn of(number: u8) -> Cause
        ensures { result ≡ cause_of number }
    {
        match number {
            0 => Cause::Unknown,
            1 => Cause::FirstWord,
            2 => Cause::OtherName,
            3 => Cause::NoNumber,
            4 => Cause::BelowRange,
            5 => Cause::AboveRange,
            6 => Cause::MoreWords,
            7 => Cause::SettingHigh,
            8 => Cause::Sleepless,
            9 => Cause::RunHigh,
            10 => Cause::DeadlineHigh,
            11 => Cause::OneTooMany,
            12 => Cause::AfterUse,
            13 => Cause::NotBelow,
            14 => Cause::OfNoTask,
            15 => Cause::OutOfOrder,
            16 => Cause::PastRun,
            17 => Cause::NoTask,
            18 => Cause::TooLong,
            _ => Cause::NoRoom,
        }
    }

    // Its number in docs/NOTATION.md.
    pub fn number(self) -> u8
        ensures { result ≡ cause_number self }
    {
        self as u8
    }
}
