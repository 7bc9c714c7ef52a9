// Definitions only: the image that a text has, its lines, and the text lines that they come from. The code stands in `crunch_sizes`, `crunch_measure`,
// `crunch_write` and `crunch_image`.
#![tactic(auto)]

use base_refusals::Refusal;
use image_readers::Line;
use word_dialects::Dialect;

// What a text is crunched with: where its image begins, its dialect, whether the machine profile is asked, line by line, and whether short
// forms of V2 words are taken.
#[derive(Clone, Copy)]
pub struct Options {
    pub load: u16,
    pub dialect: Dialect,
    pub profile: bool,
    pub forms: bool,
}

// A line of the image that a text would have, as it will stand there, and the text line that it comes from: counted from 1, blank ones too.
#[derive(Clone, Copy)]
pub struct MeasuredLine {
    pub line: Line,
    pub origin: usize,
}
