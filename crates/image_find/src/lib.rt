// A line by its number: links are followed up to the first line that has it.
#![tactic(auto)]

ghost use Rattle.std.specs.Prelude.{◌≡◌};
ghost use Rattle.image_find.specs.Sought.{sought_answer, line_sought, body_in};

use base_refusals::Refusal;
use image_readers::{Line, links};

// An image has at most this many bytes.
const LONGEST: usize = 1048576;

// What a search for a line answers.
#[derive(Clone, Copy)]
pub enum Sought {
    // The first line with the number, and the headers visited, its own among them.
    Found { visited: usize, line: Line },
    // No line has it: the headers visited are all there are.
    Nowhere { visited: usize },
    // As many headers as the limit allows were visited, and the end marker is not next: refusal 19.
    LimitReached,
}

// Follows the links from the first line on, over at most `limit` headers.
pub fn find_line(image: &[u8], number: u16, limit: usize) -> Result<Sought, Refusal>
    ensures { sought_answer result ≡ line_sought number limit image.now }
{
    let length = image.len();
    if length > LONGEST {
        return Err(Refusal::ImageTooLong { length });
    }
    if length < 2 {
        return Err(Refusal::TooShort);
    }
    let mut offset: usize = 2;
    for visited in 0..limit {
        let Some(line) = links::step(image, offset)? else {
            return Ok(Sought::Nowhere { visited });
        };
        if line.number == number {
            return Ok(Sought::Found {
                visited: visited + 1,
                line,
            });
        }
        offset = line.next;
    }
    match links::step(image, offset) {
        Ok(None) => Ok(Sought::Nowhere { visited: limit }),
        Ok(Some(_)) => Ok(Sought::LimitReached),
        Err(_) => Ok(Sought::LimitReached),
    }
}

// The body of a line that was found, as that part of the image; an empty part where the line does not lie in this image.
pub fn body(image: &[u8], line: Line) -> &[u8]
    ensures { result.now ≡ body_in image.now line }
{
    image.get(line.from..line.to).unwrap_or(&image[..0])
}
