// Where a scan of the dialect guess stands in a line, and which word begins there.
#![tactic(auto)]

pub mod beginnings;
pub mod place;
