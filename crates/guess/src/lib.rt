// The dialect guess: whether a text is TSB, and which TSB words it uses as variables.
#![tactic(auto)]

pub mod resolve;
