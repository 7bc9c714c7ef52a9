// The faults that make a program unfit for the master disk: of the whole image, of a line, of a jump.
#![tactic(auto)]

ghost use Rattle.std.specs.Prelude.{◌≡◌, ◌+◌, ◌≤◌, get_or};
ghost use Rattle.image_bytes.specs.ImageBytes.{low_first_at};
ghost use Rattle.image_marks.specs.Marks.{has_mark};
ghost use Rattle.image_faults.specs.Faults.{memory_faults, number_faults, order_faults, zero_faults, length_faults, relink_faults};
ghost use Rattle.image_faults.specs.ToldHelpers.{told_fault, UnmetIs, LineIs};

use image_jumps::{Cursor, Jump};
use image_readers::{Line, terminators};
use image_relink::Relinked;

// What makes a program unfit. A number is that of the line.
#[derive(Clone, Copy)]
pub enum Fault {
    // It does not lie in the machine's BASIC memory, 0801 to 9FFF.
    OutsideMemory { load: u16, length: usize },
    NumberTooHigh { number: u16 },
    NotAscending { number: u16 },
    // The address is that of the body's first zero.
    ZeroInBody { number: u16, address: usize },
    BodyLength { number: u16, length: usize },
    // No line has the target of a jump; 65536 is any target above 65535.
    NoTarget { number: u16, target: usize },
    // The machine gives the line another link when it has loaded the program.
    LinkChanges { number: u16, link: u16 },
    // The machine leaves the program when it sets the links.
    LinksLeave,
    // The machine never ends setting the links.
    LinksEndless,
}

pub fn memory_fault(image: &[u8]) -> Option<Fault>
    ensures { told_fault result ≡ memory_faults image.now }
{
    let load = low_first_at(image, 0);
    let length = image.len();
    if image_limits::is_in_basic_memory(image_limits::commodore_64(), load, length) {
        return None;
    }
    Some(Fault::OutsideMemory { load, length })
}

pub fn number_fault(line: Line) -> Option<Fault>
    ensures { told_fault result ≡ number_faults line }
{
    let number = line.number;
    if image_limits::is_too_high(image_limits::commodore_64(), number) {
        return Some(Fault::NumberTooHigh { number });
    }
    None
}

pub fn order_fault(line: Line, least: usize) -> Option<Fault>
    ensures { told_fault result ≡ order_faults least line }
{
    let number = line.number;
    if image_limits::is_not_ascending(least, number) {
        return Some(Fault::NotAscending { number });
    }
    None
}

// The body by terminators ends at the first zero.
pub fn zero_fault(image: &[u8], offset: usize, line: Line) -> Option<Fault>
    requires { LineIs image.now offset line }
    ensures { told_fault result ≡ zero_faults image.now line }
{
    let number = line.number;
    let zero = line.from + terminators::body(image, offset).len();
    if zero < line.to {
        let address = low_first_at(image, 0) as usize + zero - 2;
        return Some(Fault::ZeroInBody { number, address });
    }
    None
}

pub fn length_fault(image: &[u8], offset: usize, line: Line) -> Option<Fault>
    requires { LineIs image.now offset line }
    ensures { told_fault result ≡ length_faults image.now line }
{
    let number = line.number;
    let length = line.to - line.from;
    if image_limits::is_bad_length(image_limits::commodore_64(), length) {
        return Some(Fault::BodyLength { number, length });
    }
    None
}

// The next jump of a body whose target is not marked.
pub fn unmet_jump(body: &[u8], marked: &[u8], cursor: Cursor) -> Option<Jump>
    ensures { UnmetIs (has_mark marked.now) body.now cursor result }
{
    let mut cursor = cursor;
    while let Some(jump) = image_jumps::next_jump(body, cursor) {
        if !image_marks::has_mark(marked, jump.target) {
            return Some(jump);
        }
        cursor = jump.cursor;
    }
    None
}

pub fn relink_fault(image: &[u8]) -> Option<Fault>
    ensures { told_fault result ≡ relink_faults image.now }
{
    match image_relink::relink(image) {
        Ok(Relinked::Same) => None,
        Ok(Relinked::Changed { offset, link }) => Some(Fault::LinkChanges {
            number: number_at(image, offset),
            link,
        }),
        Ok(Relinked::Leaves) => Some(Fault::LinksLeave),
        Ok(Relinked::Endless) => Some(Fault::LinksEndless),
        Err(_) => None,
    }
}

// The number of the line at an offset; a byte that is not there counts as 0.
fn number_at(image: &[u8], offset: usize) -> u16
    ensures { result ≡ low_first_at image.now (offset + 2) }
{
    if offset >= image.len() {
        return 0;
    }
    low_first_at(image, offset + 2)
}

// The number in two bytes at an offset, low byte first; a byte that is not there counts as 0.
fn low_first_at(image: &[u8], offset: usize) -> u16
    requires { offset ≤ 18446744073709551614 }
    ensures { result ≡ low_first_at image.now offset }
{
    image_bytes::low_first(byte_at(image, offset), byte_at(image, offset + 1))
}

fn byte_at(image: &[u8], offset: usize) -> u8
    ensures { result ≡ get_or image.now offset 0 }
{
    image.get(offset).copied().unwrap_or(0)
}
