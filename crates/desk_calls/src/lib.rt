// What the programs ask of the system, as the library has it: the words that a program was given, and files by names that are rows of bytes. No
// contract can say what the system answers; a count lies within the buffer that was lent.
#![tactic(auto)]

pub mod files;
pub mod reasons;
pub mod words;
