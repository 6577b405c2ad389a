// Each statement fixes its outcome. There is no code here: specs/Fixed.antt says it, proofs/Fixed.antt proves it.
#![tactic(auto)]
