// Words and numbers: put into a lent buffer, and found in a text.
#![tactic(auto, using(crate::proofs::Pages::pages))]

mod finding;
mod page;

pub use finding::{Class, run_end, same, value};
pub use page::Page;
