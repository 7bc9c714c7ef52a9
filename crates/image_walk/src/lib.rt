// The listing walk: an image and a place in it, kept together. It adds nothing to the steps of the reader by terminators.
// A function over `Walk` takes it apart and calls a function on the image and the offset.
#![tactic(auto)]

ghost use Rattle.std.specs.Prelude.{◌≡◌};
ghost use Rattle.image_readers.specs.Bodies.{body_at};
ghost use Rattle.image_readers.specs.Terminators.{terminator_step};
ghost use Rattle.image_walk.specs.Places.{walk_at, behind};
ghost use Rattle.base_refusals.specs.Answer.{answered};

use base_refusals::Refusal;
use image_readers::Line;

// An image, and the offset at which the walk stands.
#[derive(Clone, Copy)]
pub struct Walk<'a> {
    image: &'a [u8],
    offset: usize,
}

// A walk at an image's first line.
pub fn start<'a>(image: &'a [u8]) -> Walk<'a>
    ensures { result ≡ walk_at image.entry 2 }
{
    Walk { image, offset: 2 }
}

// What stands at a walk's place: a line, the end, or the refusal.
pub fn step<'a>(walk: Walk<'a>) -> Result<Option<Line>, Refusal>
    ensures { answered result ≡ terminator_step walk.entry.image.now walk.entry.offset }
{
    image_readers::terminators::step(walk.image, walk.offset)
}

// The body of the line there, as that part of the image; an empty part where no line is.
pub fn body<'a>(walk: Walk<'a>) -> &'a [u8]
    ensures { result.now ≡ body_at terminator_step walk.entry.image.now walk.entry.offset }
{
    image_readers::terminators::body(walk.image, walk.offset)
}

// The walk moved on behind the line there; it stays where no line is.
pub fn advance<'a>(walk: Walk<'a>) -> Walk<'a>
    ensures { result ≡ walk_at walk.entry.image (behind terminator_step walk.entry.image.now walk.entry.offset) }
{
    Walk {
        image: walk.image,
        offset: next_offset(walk.image, walk.offset),
    }
}

// A walk's place in its image.
pub fn place<'a>(walk: Walk<'a>) -> usize
    ensures { result ≡ walk.entry.offset }
{
    walk.offset
}

// What stands at an image's first line, for a caller that keeps no walk.
pub fn first_step(image: &[u8]) -> Result<Option<Line>, Refusal>
    ensures { answered result ≡ terminator_step image.now 2 }
{
    step(start(image))
}

// The offset behind the line at an offset; that offset where no line is.
fn next_offset(image: &[u8], offset: usize) -> usize
    ensures { result ≡ behind terminator_step image.now offset }
{
    match image_readers::terminators::step(image, offset) {
        Ok(Some(line)) => line.next,
        Ok(None) | Err(_) => offset,
    }
}
