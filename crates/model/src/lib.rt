// The definitions of every call, and the table of cases of document 01, in specs/; the theorem that the definitions compute it, in proofs/.
// There is no code here.
#![tactic(auto)]
