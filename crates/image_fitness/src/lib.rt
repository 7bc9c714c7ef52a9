// Whether a program is fit for the master disk: its faults, one after the other.
#![tactic(auto)]

ghost use Rattle.std.specs.Prelude.{◌≡◌};
ghost use Rattle.image_marks.specs.Marks.{has_mark};
ghost use Rattle.image_faults.specs.ToldHelpers.{LineIs};
ghost use Rattle.image_fitness.specs.FaultHelpers.{moved_by, MovedIs, FaultIs};

use image_faults::Fault;
use image_jumps::Cursor;
use image_readers::{Line, links};

// What is looked at in a line, in this order.
#[derive(Clone, Copy)]
pub enum Check {
    Number,
    Order,
    Zero,
    Length,
    Jumps(Cursor),
}

// What is looked at in an image, in this order.
#[derive(Clone, Copy)]
pub enum Stage {
    Memory,
    Line(Check),
    Relinking,
    Done,
}

// A place of the walk: what is looked at next, the line's offset, and the least number that the line may have.
#[derive(Clone, Copy)]
pub struct Place {
    pub stage: Stage,
    pub offset: usize,
    pub least: usize,
}

// A fault, and the place behind it.
#[derive(Clone, Copy)]
pub struct Found {
    pub fault: Fault,
    pub place: Place,
}

#[derive(Clone, Copy)]
enum Moved {
    Told(Found),
    On(Place),
    End,
}

// The place before an image's first byte.
pub fn first() -> Place
    ensures { result ≡ record { stage = Stage.Memory; offset = 2; least = 0 } }
{
    Place {
        stage: Stage::Memory,
        offset: 2,
        least: 0,
    }
}

// The next fault from a place on, in an image whose lines' numbers are marked.
pub fn next_fault(image: &[u8], marked: &[u8], place: Place) -> Option<Found>
    ensures { FaultIs (has_mark marked.now) image.now place result }
{
    let mut place = place;
    loop {
        match step(image, marked, place) {
            Moved::Told(found) => {
                return Some(found);
            }
            Moved::On(behind) => {
                place = behind;
            }
            Moved::End => {
                return None;
            }
        }
    }
}

// What is looked at at a place.
fn step(image: &[u8], marked: &[u8], place: Place) -> Moved
    ensures { MovedIs (has_mark marked.now) image.now place result }
{
    let stage = place.stage;
    let offset = place.offset;
    let least = place.least;
    match stage {
        Stage::Memory => lead(
            image_faults::memory_fault(image),
            at(Stage::Line(Check::Number), offset, least),
        ),
        Stage::Line(check) => line_step(image, marked, check, offset, least),
        Stage::Relinking => lead(
            image_faults::relink_fault(image),
            at(Stage::Done, offset, least),
        ),
        Stage::Done => Moved::End,
    }
}

// A check of the line at an offset; behind the last line, the machine's links.
fn line_step(image: &[u8], marked: &[u8], check: Check, offset: usize, least: usize) -> Moved
    ensures { MovedIs (has_mark marked.now) image.now (record { stage = Stage.Line check; offset = offset; least = least }) result }
{
    match links::step(image, offset) {
        Ok(Some(line)) => in_line(image, marked, check, offset, least, line),
        Ok(None) | Err(_) => Moved::On(at(Stage::Relinking, offset, least)),
    }
}

fn in_line(
    image: &[u8],
    marked: &[u8],
    check: Check,
    offset: usize,
    least: usize,
    line: Line,
) -> Moved
    requires { LineIs image.now offset line }
    ensures { MovedIs (has_mark marked.now) image.now (record { stage = Stage.Line check; offset = offset; least = least }) result }
{
    match check {
        Check::Number => lead(
            image_faults::number_fault(line),
            at(Stage::Line(Check::Order), offset, least),
        ),
        Check::Order => lead(
            image_faults::order_fault(line, least),
            at(Stage::Line(Check::Zero), offset, least),
        ),
        Check::Zero => lead(
            image_faults::zero_fault(image, offset, line),
            at(Stage::Line(Check::Length), offset, least),
        ),
        Check::Length => lead(
            image_faults::length_fault(image, offset, line),
            at(
                Stage::Line(Check::Jumps(image_jumps::first())),
                offset,
                least,
            ),
        ),
        Check::Jumps(cursor) => jumps_step(image, marked, cursor, offset, least, line),
    }
}

// The next jump without a target; behind the last, the next line.
fn jumps_step(
    image: &[u8],
    marked: &[u8],
    cursor: Cursor,
    offset: usize,
    least: usize,
    line: Line,
) -> Moved
    requires { LineIs image.now offset line }
    ensures { MovedIs (has_mark marked.now) image.now (record { stage = Stage.Line (Check.Jumps cursor); offset = offset; least = least }) result }
{
    let number = line.number;
    match image_faults::unmet_jump(&image[line.from..line.to], marked, cursor) {
        Some(jump) => Moved::Told(Found {
            fault: Fault::NoTarget {
                number,
                target: jump.target,
            },
            place: at(Stage::Line(Check::Jumps(jump.cursor)), offset, least),
        }),
        None => Moved::On(at(
            Stage::Line(Check::Number),
            line.next,
            usize::from(number) + 1,
        )),
    }
}

fn at(stage: Stage, offset: usize, least: usize) -> Place
    ensures { result ≡ record { stage = stage; offset = offset; least = least } }
{
    Place {
        stage,
        offset,
        least,
    }
}

// A fault and a place behind it, or that place.
fn lead(fault: Option<Fault>, place: Place) -> Moved
    ensures { result ≡ moved_by fault place }
{
    match fault {
        Some(fault) => Moved::Told(Found { fault, place }),
        None => Moved::On(place),
    }
}
