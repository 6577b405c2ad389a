// The worked cases that document 01 marks P. There is no code here: specs/Worked.antt is the table, proofs/Worked.antt computes it.
#![tactic(auto)]
