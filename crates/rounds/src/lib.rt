// What the analysis of a system of equations is and why it is right: the definitions are in specs/, the theorems in proofs/, for other crates to cite.
#![tactic(auto)]
