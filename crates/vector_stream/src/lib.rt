// What the vector programs share: the stream's numbers and slices, the rows of its calls, what an item came to, the counts and
// what is printed, and the run over all items. Each program has the calls of its own stream. docs/VECTORS.md tells the format and
// how a program is added.
#![tactic(auto)]

pub mod items;
mod report;
mod rows;
pub mod run;
pub mod stream;
mod tally;
