// Lines of an image, one at a time: by its offset, by its number, by its place in the image that a text would have.
ghost use Rattle.std.specs.Prelude.{◌≡◌};
ghost use Rattle.base_refusals.specs.Answer.{numbered, answered};
ghost use Rattle.base_refusals.specs.Code.{code_of};
ghost use Rattle.image_readers.specs.Links.{link_step};
ghost use Rattle.image_readers.specs.Terminators.{terminator_step};
ghost use Rattle.image_find.specs.Sought.{line_sought, sought_answer};
ghost use Rattle.moldthatch.specs.Given.{measured_with};
ghost use Rattle.moldthatch.specs.ToldLines.{line_code, no_line, step_code, visit_code, measured_code};

use base_refusals::{Code, Refusal};
use crunch_rules::MeasuredLine;
use image_find::Sought;
use image_readers::{Line, links, terminators};
use library_numbers::{CrunchNumbers, crunch_options};

// A line, where `found` is 1: its link and number, its address in memory, the offsets of its body and of what follows it. The code is 0, with
// what is told beside the line, or why there is none.
#[repr(C)]
#[derive(Clone, Copy)]
pub struct LineCode {
    pub code: Code,
    pub found: u8,
    pub link: u16,
    pub number: u16,
    pub address: usize,
    pub from: usize,
    pub to: usize,
    pub next: usize,
}

// The line at an offset of an image, by its link. No line is found at the end.
#[unsafe(no_mangle)]
pub extern "C" fn moldthatch_step(image: &[u8], offset: usize) -> LineCode
    ensures { result ≡ step_code (link_step image.now offset) }
{
    step_code(links::step(image, offset))
}

// The same by its terminator.
#[unsafe(no_mangle)]
pub extern "C" fn moldthatch_step_terminators(image: &[u8], offset: usize) -> LineCode
    ensures { result ≡ step_code (terminator_step image.now offset) }
{
    step_code(terminators::step(image, offset))
}

// The first line with a number, over at most so many headers, and the headers visited.
#[unsafe(no_mangle)]
pub extern "C" fn moldthatch_find_line(image: &[u8], number: u16, limit: usize) -> LineCode
    ensures { result ≡ visit_code (line_sought number limit image.now) }
{
    sought_code(image_find::find_line(image, number, limit))
}

// The line at a place from 1 of the image that a text would have, and the text line that it comes from.
#[unsafe(no_mangle)]
pub extern "C" fn moldthatch_measured_line(
    text: &[u8],
    options: CrunchNumbers,
    place: usize,
) -> LineCode
    ensures { result ≡ measured_code (measured_with options place text.now) }
{
    match word_dialects::dialect_by_number(options.dialect) {
        Ok(known) => {
            measured_code(crunch_image::measured_line(text, crunch_options(options, known), place))
        }
        Err(refusal) => refused_line(refusal),
    }
}

fn step_code(step: Result<Option<Line>, Refusal>) -> LineCode
    ensures { result ≡ step_code (answered step) }
{
    match step {
        Ok(Some(line)) => line_code(0, 0, line),
        Ok(None) => no_line(0, 0, 0),
        Err(refusal) => refused_line(refusal),
    }
}

fn sought_code(sought: Result<Sought, Refusal>) -> LineCode
    ensures { result ≡ visit_code (sought_answer sought) }
{
    match sought {
        Ok(Sought::Found { visited, line }) => line_code(1, visited, line),
        Ok(Sought::Nowhere { visited }) => no_line(0, 1, visited),
        Ok(Sought::LimitReached) => no_line(19, 0, 0),
        Err(refusal) => refused_line(refusal),
    }
}

fn measured_code(measured: Result<Option<MeasuredLine>, Refusal>) -> LineCode
    ensures { result ≡ measured_code (answered measured) }
{
    match measured {
        Ok(Some(there)) => line_code(1, there.origin, there.line),
        Ok(None) => no_line(0, 0, 0),
        Err(refusal) => refused_line(refusal),
    }
}

// A line, with at most one value beside it.
fn line_code(count: usize, first: usize, line: Line) -> LineCode
    ensures { result ≡ line_code (record { number = 0; count = count; first = first; second = 0 }) line }
{
    let code = Code {
        number: 0,
        count,
        first,
        second: 0,
    };
    LineCode {
        code,
        found: 1,
        link: line.link,
        number: line.number,
        address: line.address,
        from: line.from,
        to: line.to,
        next: line.next,
    }
}

fn no_line(number: u8, count: usize, first: usize) -> LineCode
    ensures { result ≡ no_line (record { number = number; count = count; first = first; second = 0 }) }
{
    none_for(Code {
        number,
        count,
        first,
        second: 0,
    })
}

fn refused_line(refusal: Refusal) -> LineCode
    ensures { result ≡ no_line (code_of (numbered refusal)) }
{
    none_for(base_refusals::refusal_code(refusal))
}

fn none_for(code: Code) -> LineCode
    ensures { result ≡ no_line code }
{
    LineCode {
        code,
        found: 0,
        link: 0,
        number: 0,
        address: 0,
        from: 0,
        to: 0,
        next: 0,
    }
}
