// By terminators: a line's body ends at its first 00, whatever its link says.
ghost use Rattle.std.specs.Prelude.{◌≡◌, ◌+◌, ◌≤◌, length};
ghost use Rattle.image_readers.specs.Bodies.{body_at};
ghost use Rattle.image_readers.specs.Lines.{overview};
ghost use Rattle.image_readers.specs.Terminators.{terminated_line, terminator_step};
ghost use Rattle.base_refusals.specs.Answer.{answered};

use crate::{By, LONGEST, Line, Overview, line_at};
use base_refusals::Refusal;
use image_bytes::body_end;

// Reads the lines from the first to the end, each byte once.
pub fn check(image: &[u8]) -> Result<Overview, Refusal>
    ensures { answered result ≡ overview terminator_step image.now }
{
    crate::check_by(image, By::Terminators)
}

// The line at an offset, any offset; none where the image ends.
#[tactic(auto, using(crate::proofs::ByTerminators::terminator_end))]
pub fn step(image: &[u8], offset: usize) -> Result<Option<Line>, Refusal>
    ensures { answered result ≡ terminator_step image.now offset }
{
    let length = image.len();
    if length > LONGEST {
        return Err(Refusal::ImageTooLong { length });
    }
    if length < 2 {
        return Err(Refusal::TooShort);
    }
    if offset >= length {
        return Ok(None);
    }
    if length - offset < 2 {
        return Err(Refusal::UnexpectedEof);
    }
    if image[offset + 1] == 0 {
        return Ok(None);
    }
    if length - offset < 4 {
        return Err(Refusal::UnexpectedEof);
    }
    Ok(Some(terminated_line(image, offset)))
}

// The body of the line at an offset, as that part of the image; an empty part where no line is.
pub fn body(image: &[u8], offset: usize) -> &[u8]
    ensures { result.now ≡ body_at terminator_step image.now offset }
{
    crate::body_by(image, offset, By::Terminators)
}

// The line at an offset: its body runs to the first 00, and the next offset is behind that; or both are the image's end.
fn terminated_line(image: &[u8], offset: usize) -> Line
    requires { (offset + 4 ≤ length image.now) × (length image.now ≤ 1048576) }
    ensures { result ≡ terminated_line image.now offset }
{
    let to = body_end(image, offset);
    let next = image.len().min(to + 1);
    line_at(image, offset, to, next)
}
