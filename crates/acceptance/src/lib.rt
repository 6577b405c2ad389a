// All that the buyer asks for, as one theorem. There is no code here: specs/Accepted.antt says it, proofs/Accepted.antt proves it.
#![tactic(auto)]
