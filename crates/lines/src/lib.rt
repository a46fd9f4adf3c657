// The lines that the bounds program prints, put into a lent buffer.
#![tactic(auto, using(words::proofs::Pages::pages))]

ghost use Rattle.std.specs.Prelude.{◌≤◌, length};
ghost use Rattle.io.specs.Counts.{IsPrefixLen};
ghost use Rattle.lines.specs.Lines.{verdict_text, lines_of, printed};
ghost use Rattle.words.specs.Pages.{room, Puts};
ghost use Rattle.words.specs.Text.{fitted};
ghost use Rattle.words.specs.Writing.{Put};

mod tasks;

use analysis::Analysis;
use tasks::put_tasks;
use words::Page;

// Puts the verdict and the total.
#[tactic(auto, using(words::proofs::Pages::pages, words::proofs::Words::decimal_few))]
fn put_verdict(page: &mut Page, verdict: bool, evaluations: u64)
    requires { 44 ≤ room page.old }
    ensures { Puts page.old (verdict_text verdict evaluations) page.new }
{
    if verdict {
        page.number(b"verdict yes evaluations ", evaluations);
    } else {
        page.number(b"verdict no evaluations ", evaluations);
    }
}

// Puts the lines of an analysis: a refusal alone, or the verdict and every task. How many tasks there are at most is asked here, and no fact of
// `Analysis`, whose fields a host may set.
#[tactic(auto, using(words::proofs::Pages::pages, words::proofs::Words::refusal_few, crate::proofs::Puts::verdict_few))]
fn put_lines(page: &mut Page, bytes: &[u8], analysis: &Analysis)
    requires tasks_bound { analysis.now.tasks ≤ 32 }
    requires room { 4096 ≤ room page.old }
    ensures { Puts page.old (lines_of bytes.now analysis.now) page.new }
{
    if let Some(refusal) = analysis.refusal {
        page.refusal(refusal);
    } else {
        put_verdict(page, analysis.verdict, analysis.evaluations);
        page.text(b"\n");
        put_tasks(page, bytes, analysis);
    }
}

// What the bounds program prints of a table's bytes, at the front of a buffer; the answer is how long it is, and the rest of the buffer stays.
// A buffer of less than 4,096 bytes stays as it is, and the answer is 0.
#[tactic(auto, using(words::proofs::Pages::pages, analysis::proofs::Replies::tasks_most), unfolding(words::specs::Pages::sheet, words::specs::Sheet::onward))]
pub fn bounds_lines(bytes: &[u8], allowance: u64, out: &mut [u8]) -> usize
    ensures put { Put out.old 0 (fitted 4096 (length out.old) (printed bytes.now allowance)) out.new result }
    ensures prefix_len { IsPrefixLen result out.new }
{
    if out.len() < 4096 {
        return 0;
    }
    let analysis = analysis::analyse(bytes, allowance);
    let mut page = Page::new(out);
    put_lines(&mut page, bytes, &analysis);
    page.len()
}
