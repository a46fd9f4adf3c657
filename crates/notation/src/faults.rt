// The line of a fault.
ghost use Rattle.std.specs.Prelude.{◌≡◌, ◌≤◌};
ghost use Rattle.words.specs.Finding.{word_of};
ghost use Rattle.words.specs.Pages.{room, Puts};
ghost use Rattle.notation.specs.Causes.{cause_number};
ghost use Rattle.notation.specs.Columns.{column_or_none, name, least, most};
ghost use Rattle.notation.specs.Numbered.{fault_of};
ghost use Rattle.notation.specs.Faults.{expected, between, limit, word_text, opening, middle, closing, reason_text, whole_text, fault_text, fault_line};

use crate::Fault;
use crate::causes::Cause;
use crate::columns::Column;
use words::{Class, Page, run_end};

impl Cause {
    // What was expected, up to the name of a column.
    #[tactic(auto, unfolding(crate::specs::Faults::expected))]
    fn expected(self) -> &'static [u8]
        ensures { result.now ≡ expected (cause_number self) }
    {
        match self {
            Cause::FirstWord => b"expected task or use",
            Cause::OtherName => b"expected ",
            Cause::NoNumber => b"expected a number after ",
            Cause::MoreWords => b"expected the end of the line",
            _ => b"",
        }
    }

    // What stands between the name of a column and the word that was found.
    fn between(self) -> &'static [u8]
        ensures { result.now ≡ between (cause_number self) }
    {
        match self {
            Cause::BelowRange | Cause::AboveRange => b" ",
            _ => b", found ",
        }
    }

    // The words before the first value of a rule.
    #[tactic(auto, unfolding(crate::specs::Faults::opening))]
    fn opening(self) -> &'static [u8]
        ensures { result.now ≡ opening (cause_number self) }
    {
        match self {
            Cause::SettingHigh => b"setting ",
            Cause::Sleepless => b"sleep ",
            Cause::RunHigh => b"run ",
            Cause::DeadlineHigh => b"deadline ",
            Cause::OfNoTask => b"use ",
            Cause::OutOfOrder => b"resource ",
            Cause::PastRun => b"the sections of task ",
            _ => b"task ",
        }
    }

    // The words before its second value.
    #[tactic(auto, unfolding(crate::specs::Faults::middle))]
    fn middle(self) -> &'static [u8]
        ensures { result.now ≡ middle (cause_number self) }
    {
        match self {
            Cause::SettingHigh => b" is not below the priority ",
            Cause::Sleepless => b" needs sleeps above ",
            Cause::RunHigh => b" is above the deadline ",
            Cause::DeadlineHigh => b" is above the period ",
            Cause::OneTooMany => b" is one too many: a table has at most ",
            Cause::AfterUse => b" comes after a use of task ",
            Cause::NotBelow => b" is not below the task before it, ",
            Cause::OfNoTask => b" is of no task: none before it has the priority ",
            Cause::OutOfOrder => b" of task ",
            _ => b" add up to more than its run ",
        }
    }

    // The words after it.
    #[tactic(auto, unfolding(crate::specs::Faults::closing))]
    fn closing(self) -> &'static [u8]
        ensures { result.now ≡ closing (cause_number self) }
    {
        match self {
            Cause::AfterUse => b": all tasks come first",
            Cause::OutOfOrder =>
                b" is out of order: uses follow the order of their tasks, and a task's resources rise",
            _ => b"",
        }
    }

    // What is wrong with the whole text.
    #[tactic(auto, unfolding(crate::specs::Faults::whole_text))]
    fn whole(self) -> &'static [u8]
        ensures { result.now ≡ whole_text (cause_number self) }
    {
        match self {
            Cause::NoTask => b"expected a task, found the end of the text",
            Cause::TooLong => b"the text is longer than 262144 bytes",
            _ => b"the table is longer than the room for it",
        }
    }
}

// Puts the name of a column, or of none.
#[tactic(auto, using(words::proofs::Pages::pages), unfolding(crate::specs::Columns::name))]
fn put_name(page: &mut Page, column: Option<Column>)
    requires { 8 ≤ room page.old }
    ensures { Puts page.old (name (column_or_none column)) page.new }
{
    if let Some(column) = column {
        column.put_name(page);
    }
}

// The least value of a column, or of none.
#[tactic(auto, unfolding(crate::specs::Columns::least))]
fn least_of(column: Option<Column>) -> u32
    ensures { result ≡ least (column_or_none column) }
{
    column.map_or(1, |column| column.least())
}

// The largest value of a column, or of none.
#[tactic(auto, unfolding(crate::specs::Columns::most))]
fn most_of(column: Option<Column>) -> u32
    ensures { result ≡ most (column_or_none column) }
{
    column.map_or(1000000, |column| column.most())
}

// The word at a place of a text.
fn word_at(text: &[u8], place: usize) -> &[u8]
    ensures { result.now ≡ word_of text.now place }
{
    if text.len() <= place {
        return b"";
    }
    &text[place..run_end(text, place, Class::Word)]
}

// Puts the limit that a value passes.
#[tactic(auto, using(words::proofs::Pages::pages, words::proofs::Words::decimal_few), unfolding(crate::specs::Faults::limit))]
fn put_limit(page: &mut Page, fault: Fault)
    requires { 30 ≤ room page.old }
    ensures { Puts page.old (limit (cause_number fault.cause) (column_or_none fault.column)) page.new }
{
    match fault.cause {
        Cause::BelowRange => page.number(b" is below ", u64::from(least_of(fault.column))),
        Cause::AboveRange => page.number(b" is above ", u64::from(most_of(fault.column))),
        _ => {}
    }
}

// Puts a word at fault.
#[tactic(auto, using(words::proofs::Pages::pages, words::proofs::Words::found_few, crate::proofs::Sizes::expected_most, crate::proofs::Sizes::name_most, crate::proofs::Sizes::between_most, crate::proofs::Sizes::limit_most))]
fn put_word(page: &mut Page, text: &[u8], fault: Fault)
    requires { 106 ≤ room page.old }
    ensures { Puts page.old (word_text text.now (fault_of fault)) page.new }
{
    page.text(fault.cause.expected());
    put_name(page, fault.column);
    page.text(fault.cause.between());
    page.found(word_at(text, fault.at));
    put_limit(page, fault);
}

// Puts a rule that is broken.
#[tactic(auto, using(words::proofs::Pages::pages, words::proofs::Words::decimal_few, crate::proofs::Sizes::opening_most, crate::proofs::Sizes::middle_most, crate::proofs::Sizes::closing_most))]
fn put_reason(page: &mut Page, fault: Fault)
    requires { 193 ≤ room page.old }
    ensures { Puts page.old (reason_text (fault_of fault)) page.new }
{
    page.number(fault.cause.opening(), u64::from(fault.value));
    page.number(fault.cause.middle(), u64::from(fault.other));
    page.text(fault.cause.closing());
}

// Puts what is at fault.
#[tactic(auto, using(words::proofs::Pages::pages, crate::proofs::Sizes::whole_most))]
fn put_cause(page: &mut Page, text: &[u8], fault: Fault)
    requires { 193 ≤ room page.old }
    ensures { Puts page.old (fault_text text.now (fault_of fault)) page.new }
{
    match fault.cause {
        Cause::FirstWord
        | Cause::OtherName
        | Cause::NoNumber
        | Cause::BelowRange
        | Cause::AboveRange
        | Cause::MoreWords
        | Cause::Unknown => put_word(page, text, fault),
        Cause::NoTask | Cause::TooLong | Cause::NoRoom => page.text(fault.cause.whole()),
        _ => put_reason(page, fault),
    }
}

// Puts the line of a fault.
#[tactic(auto, using(words::proofs::Pages::pages, words::proofs::Words::decimal_few))]
pub fn put_fault(page: &mut Page, text: &[u8], fault: Fault)
    requires { 256 ≤ room page.old }
    ensures { Puts page.old (fault_line text.now (fault_of fault)) page.new }
{
    page.number(b"line ", fault.line as u64);
    page.text(b": ");
    put_cause(page, text, fault);
    page.text(b"\n");
}
