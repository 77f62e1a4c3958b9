// Demand 3: the walked list is the shown list, its keys and references, the laws of merge over words, and one theorem about every list of calls on a
// fleet. There is no code here.
#![tactic(auto)]
