// What an editor asks of a text before it is crunched: nothing here changes an image.
#![tactic(auto)]

pub mod braces;
pub mod deciding;
pub mod sights;
