// Laws of the definitions: joins of records, merge on values, the four steps of the shown list. There is no code here.
#![tactic(auto)]
