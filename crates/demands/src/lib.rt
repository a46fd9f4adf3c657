// The user's three demands, and that no job is late, as theorems about the definitions that the public functions are promised by: all of it is in specs/.
#![tactic(auto)]
