// Laws only: a slice of a table's length is well-formed exactly if its value is valid and it is that value's encoding. There is no code here.
#![tactic(auto)]
