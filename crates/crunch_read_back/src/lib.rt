// A text, crunched and read back: the third demand, as a call.
#![tactic(auto)]

ghost use Rattle.std.specs.Prelude.{◌≡◌};
ghost use Rattle.base_lent.specs.Lent.{into_buffer};
ghost use Rattle.crunch_rules.specs.Crunched.{crunched};
ghost use Rattle.crunch_read_back.specs.ReadingBack.{reading_back, left_read};

use base_refusals::Refusal;
use crunch_rules::Options;
use image_readers::{Overview, links};

// What comes of a text that has an image and the room for it: the image's length, and what the reader by links says of it. From the load
// address 0x00FB on it finds every line; below, it may find none (proofs/Demand.antt).
#[derive(Clone, Copy)]
pub struct ReadBack {
    pub length: usize,
    pub read: Result<Overview, Refusal>,
}

// Crunches a text into the start of a buffer, and reads the image there by its links.
pub fn crunch_and_read(text: &[u8], options: Options, out: &mut [u8]) -> Result<ReadBack, Refusal>
    ensures { left_read result out.new ≡ reading_back (into_buffer (crunched options text.now) out.old) }
{
    let length = crunch_image::crunch(text, options, out)?;
    let read = links::check(&out[..length]);
    Ok(ReadBack { length, read })
}
