// Demand 3: a list of energies dealt to histograms and merged. There is no code here: specs/Dealing.antt says the demand, proofs/Dealing.antt proves it.
#![tactic(auto)]
