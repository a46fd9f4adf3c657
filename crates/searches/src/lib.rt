// Searches, sums and lists over an index: specs/ says what they are, proofs/ what holds of them, for other crates to cite.
#![tactic(auto)]
