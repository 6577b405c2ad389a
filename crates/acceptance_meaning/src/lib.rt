// Demand 2: the ranks are the Rust's, the gate is BS.1770's and the range Tech 3342's. There is no code here: specs/ says it, proofs/ proves it.
#![tactic(auto)]
