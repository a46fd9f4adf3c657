// Why every job is over within the bound that its task is told: specs/ says what that is, proofs/ shows it.
#![tactic(auto)]
