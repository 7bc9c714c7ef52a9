// Definitions only: a disk of the 1541 as a D64, and what the five calls over one do. The code stands in the other crates of this layer.
#![tactic(auto)]

// What two bytes link to: nothing further, with a second byte; a sector; or a sector that does not exist.
#[derive(Clone, Copy)]
pub enum Link {
    Last(u8),
    To(usize),
    Astray,
}

// What a sound disk holds: how many listed files, and how many free sectors off track 18.
#[derive(Clone, Copy)]
pub struct Holding {
    pub files: usize,
    pub free: usize,
}
