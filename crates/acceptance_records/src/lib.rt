// Demand 1 of the records, that their statements fix their outcomes, and demand 3 as the report tells it. There is no code here: specs/ says it, proofs/ proves it.
#![tactic(auto)]
