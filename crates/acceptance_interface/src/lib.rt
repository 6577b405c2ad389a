// Demand 1 at the C interface: a function's result is its operation's refusal, or 0. There is no code here: specs/ says it, proofs/ proves it.
#![tactic(auto)]
