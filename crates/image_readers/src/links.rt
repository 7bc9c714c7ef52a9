// By links: a line ends where its link leads, and the byte before that place is its 00.
ghost use Rattle.std.specs.Prelude.{◌≡◌};
ghost use Rattle.image_readers.specs.Bodies.{body_at};
ghost use Rattle.image_readers.specs.Lines.{overview};
ghost use Rattle.image_readers.specs.Links.{link_step};
ghost use Rattle.base_refusals.specs.Answer.{answered};

use crate::{By, LONGEST, Line, Overview, line_at};
use base_refusals::Refusal;
use image_bytes::target_at;

// Follows the links from the first line to the end.
pub fn check(image: &[u8]) -> Result<Overview, Refusal>
    ensures { answered result ≡ overview link_step image.now }
{
    crate::check_by(image, By::Links)
}

// The line at an offset, any offset; none where the image ends.
#[tactic(auto, using(crate::proofs::ByLinks::link_end))]
pub fn step(image: &[u8], offset: usize) -> Result<Option<Line>, Refusal>
    ensures { answered result ≡ link_step image.now offset }
{
    let length = image.len();
    if length > LONGEST {
        return Err(Refusal::ImageTooLong { length });
    }
    if length < 2 {
        return Err(Refusal::TooShort);
    }
    if offset > length - 2 {
        return Err(Refusal::MissingEnd { offset });
    }
    if image[offset + 1] == 0 {
        return Ok(None);
    }
    let target = target_at(image, offset);
    if target < offset + 5 {
        return Err(Refusal::LinkBackward { offset });
    }
    if target > length {
        return Err(Refusal::LinkOutside { offset });
    }
    if image[target - 1] != 0 {
        return Err(Refusal::LinkNoEnd { offset });
    }
    let to = target - 1;
    Ok(Some(line_at(image, offset, to, target)))
}

// The body of the line at an offset, as that part of the image; an empty part where no line is.
pub fn body(image: &[u8], offset: usize) -> &[u8]
    ensures { result.now ≡ body_at link_step image.now offset }
{
    crate::body_by(image, offset, By::Links)
}
