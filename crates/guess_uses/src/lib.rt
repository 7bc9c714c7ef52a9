// How a word of a line is used: whether it is assigned to, called, or proves that the text is TSB.
#![tactic(auto)]

pub mod ahead;
pub mod lists;
pub mod proving;
