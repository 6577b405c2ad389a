// The histogram's two tables on BS.1770's scale. There is no code here: specs/Scale.antt is the statement, proofs/Scale.antt proves it.
#![tactic(auto)]
