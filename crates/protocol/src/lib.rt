// What the lock scheduler is, and why waits are short: specs/ says it, proofs/ shows it, for other crates to cite.
#![tactic(auto)]
