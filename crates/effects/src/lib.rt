// Laws only: what an accepted insertion, update or deletion does to the words of its table. There is no code here.
#![tactic(auto)]
