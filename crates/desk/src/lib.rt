// What the programs read and write. Without arguments a program goes from standard input to standard output. ./moldthatch gives it three:
// IN and OUT, where - stands for the two, and PART, a free name beside OUT. OUT is then written under that name first, and takes its own
// once it is whole; where PART is -, as for a device, it is written in place. Further words are the program's own. No contract can say what is
// read or written.
#![tactic(auto)]

pub mod input;
pub mod line;
pub mod names;
pub mod options;
pub mod output;
pub mod result;
pub mod saying;
