// A table that takes in the records of another one by one: definitions in specs/, proofs on values and words in proofs/.
// There is no code here.
#![tactic(auto)]
