// What the programs read their input by, what the run of the cases ends by, and the checksums of what is printed.
#![tactic(auto)]

mod any;
pub mod input;
pub mod sums;
