// Demand 1: each operation is refused with a number exactly when that row of 01's table holds and no earlier one does. There is no code here: specs/ says it, proofs/ proves it.
#![tactic(auto)]
