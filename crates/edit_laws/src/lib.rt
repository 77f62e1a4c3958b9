// What the three edits come to, by position: the records that an edit redoes, the number of the lowest check that applies, what drafting a delta needs of
// an accepted edit, and that the table afterwards is its merge with the delta. There is no code here.
#![tactic(auto)]
