// Demand 1 of the calls over samples, and that their statements fix their outcomes. There is no code here: specs/Signals.antt says it, proofs/Signals.antt proves it.
#![tactic(auto)]
