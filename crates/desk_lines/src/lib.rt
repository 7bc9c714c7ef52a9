// How an image is listed, and its listed lines, written one after the other, a long one in stretches. No contract can say what is written: the bytes are those that
// `list_stretches` promises.
#![tactic(auto)]

ghost use Rattle.std.specs.Prelude.{◌≤◌, length};

use desk::result::Target;
use desk::{names, options, result};
use image_readers::By;
use list_options::ListOptions;
use list_stretches::Place;
use word_dialects::Dialect;

// Where the words stand that say how an image is listed: the dialect's word, and two flags behind it.
pub const DIALECT: usize = names::WORDS;

const REMARKS: usize = names::WORDS + 1;

const LINKS: usize = names::WORDS + 2;

// What the flags ask for; without any, what the original lists.
pub fn asked(rt: &HostRuntime, dialect: Dialect) -> ListOptions {
    let by = if options::is_set(rt, LINKS) {
        By::Links
    } else {
        By::Terminators
    };
    ListOptions {
        dialect,
        remarks: options::is_set(rt, REMARKS),
        by,
    }
}

// Writes the first bytes of a buffer.
fn write_first(rt: &HostRuntime, to: &Target, buf: &[u8], count: usize) -> bool
    requires { count ≤ length buf.now }
{
    result::write(rt, to, &buf[..count])
}

// Writes a line, one stretch after the other. Each brings the line nearer to its end, since a buffer of nine bytes holds every piece.
pub fn write_line(
    rt: &HostRuntime,
    to: &Target,
    number: u16,
    body: &[u8],
    options: ListOptions,
    out: &mut [u8],
) -> bool
    requires { 9 ≤ length out.old }
{
    let mut place = Place::Number(number);
    while !matches!(place, Place::Over) {
        let taken = list_stretches::list_stretch(body, options, place, out);
        if !write_first(rt, to, out, taken.length) {
            return false;
        }
        place = taken.place;
    }
    true
}

// Writes the lines of an image that has a listing.
pub fn write_lines(
    rt: &HostRuntime,
    to: &Target,
    image: &[u8],
    options: ListOptions,
    out: &mut [u8],
) -> bool
    requires { 9 ≤ length out.old }
{
    let mut offset: usize = 2;
    while let Ok(step) = image_readers::step_by(image, offset, options.by) {
        let Some(line) = step else {
            return true;
        };
        let body = &image[line.from..line.to];
        if !write_line(rt, to, line.number, body, options, out) {
            return false;
        }
        offset = line.next;
    }
    // The whole image was checked before.
    false
}
