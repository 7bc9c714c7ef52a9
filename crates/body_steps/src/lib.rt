// One step of crunching a body at a byte that does not give one by itself: what it gives in plain mode and in a string, and how much of the
// text it takes.
#![tactic(auto)]

mod plain;
pub mod step;
pub mod string;
