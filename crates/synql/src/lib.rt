// Document 004 as the paper writes it, in specs/, and the comparison of the definitions with it, in proofs/. There is no code here.
#![tactic(auto)]
