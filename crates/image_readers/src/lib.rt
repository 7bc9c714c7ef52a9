// The two readers of an image: by terminators, as the original reads, and by links.
// Each has three calls: `check` reads the whole image, `step` the line at an offset, `body` hands out that line's bytes. What both do alike
// stands here, with the reader as an argument.
#![tactic(auto)]

ghost use Rattle.std.specs.Prelude.{◌≡◌, ◌+◌, ◌≤◌, length};
ghost use Rattle.image_readers.specs.Bodies.{body_at};
ghost use Rattle.image_readers.specs.Image.{line_at};
ghost use Rattle.image_readers.specs.Lines.{overview};
ghost use Rattle.image_readers.specs.Readers.{step_by};
ghost use Rattle.base_refusals.specs.Answer.{answered};

use base_refusals::Refusal;
use image_bytes::{address_at, low_first_at};

pub mod links;
pub mod terminators;

// An image has at most this many bytes.
const LONGEST: usize = 1048576;

// What says where a line ends: the first 00 behind its number, or its link.
#[derive(Clone, Copy)]
pub enum By {
    Terminators,
    Links,
}

// A line of an image: its own address in memory, its link and its number, the offsets of its body's first byte and behind its last, and
// the offset of what follows the line.
#[derive(Clone, Copy)]
pub struct Line {
    pub address: usize,
    pub link: u16,
    pub number: u16,
    pub from: usize,
    pub to: usize,
    pub next: usize,
}

// What a whole image is.
#[derive(Clone, Copy)]
pub struct Overview {
    pub load: u16,
    pub lines: usize,
}

// Reads the lines from the first to the end.
pub fn check_by(image: &[u8], by: By) -> Result<Overview, Refusal>
    ensures { answered result ≡ overview (step_by by) image.now }
{
    let mut offset: usize = 2;
    let mut lines: usize = 0;
    while let Some(line) = step_by(image, offset, by)? {
        offset = line.next;
        lines += 1;
    }
    let load = low_first_at(image, 0);
    Ok(Overview { load, lines })
}

// The line at an offset, any offset; none where the image ends.
pub fn step_by(image: &[u8], offset: usize, by: By) -> Result<Option<Line>, Refusal>
    ensures { answered result ≡ step_by by image.now offset }
{
    match by {
        By::Terminators => terminators::step(image, offset),
        By::Links => links::step(image, offset),
    }
}

// The body of the line at an offset, as that part of the image; an empty part where no line is.
pub fn body_by(image: &[u8], offset: usize, by: By) -> &[u8]
    ensures { result.now ≡ body_at (step_by by) image.now offset }
{
    match step_by(image, offset, by) {
        Ok(Some(line)) => &image[line.from..line.to],
        Ok(None) | Err(_) => &image[..0],
    }
}

// The line at an offset: its link and number stand there, then its body up to an offset; what follows it stands at another.
fn line_at(image: &[u8], offset: usize, to: usize, next: usize) -> Line
    requires { (offset + 4 ≤ length image.now) × (length image.now ≤ 1048576) }
    ensures { result ≡ line_at image.now offset to next }
{
    let address = address_at(image, offset);
    let link = low_first_at(image, offset);
    let number = low_first_at(image, offset + 2);
    Line {
        address,
        link,
        number,
        from: offset + 4,
        to,
        next,
    }
}
