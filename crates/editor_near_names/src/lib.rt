// The escape name that is nearest to what an author has put between braces.
#![tactic(auto)]

pub mod changes;
pub mod names;
pub mod parts;
