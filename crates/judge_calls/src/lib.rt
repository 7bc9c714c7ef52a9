// The calls on texts and images that a frame can ask for: each takes the payload of a request, calls one public function and answers what came
// back. False where the answer could not be written.
#![tactic(auto)]

pub mod counted;
pub mod dialects;
pub mod found;
pub mod images;
pub mod indexes;
pub mod measured;
pub mod relinked;
pub mod rooms;
pub mod texts;
pub mod words;
