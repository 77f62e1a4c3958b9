// Laws only: sentences of document 01 that no contract states, as theorems over the definitions and as computed examples. There is no code here.
#![tactic(auto)]
