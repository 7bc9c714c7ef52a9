// The walk over a program's faults in numbers, for callers in other languages: they carry the place of the walk from call to call.
ghost use Rattle.std.specs.Prelude.{◌≡◌};
ghost use Rattle.image_marks.specs.Marks.{has_mark};
ghost use Rattle.image_fitness.specs.FaultHelpers.{faults_at};
ghost use Rattle.library_numbers.specs.FaultNumbers.{mode_of, mode_number, stage_of, cursor_of, part_of, walk_place, plain_walk, jumps_walk, check_walk, worth_of, value_of, walk_numbers, fault_code, found_code, FaultLeft};

use image_faults::Fault;
use image_fitness::{Check, Found, Place, Stage};
use image_jumps::Cursor;
use image_units::Mode;

// A place of the walk. A stage is 0 before all; 1 to 5 at the number, the order, a zero, the length and the jumps of a line; 6 behind the last
// line; any other behind all. The next five are of jumps alone: the mode at a byte of the body (1 in quotes, 2 in a remark, 3 in DATA, 4 in
// quotes there, any other in none of them), whether it stands in a list, whether a number of that list has begun, the byte, and that number.
#[repr(C)]
#[derive(Clone, Copy)]
pub struct WalkNumbers {
    pub stage: u8,
    pub mode: u8,
    pub listed: u8,
    pub begun: u8,
    pub at: usize,
    pub value: usize,
    pub offset: usize,
    pub least: usize,
}

// A fault by its kind, with what it carries, and the place behind it. Kind 0 is none.
#[repr(C)]
#[derive(Clone, Copy)]
pub struct FaultCode {
    pub kind: u8,
    pub first: usize,
    pub second: usize,
    pub place: WalkNumbers,
}

// The place before an image's first byte.
pub fn start() -> WalkNumbers
    ensures { walk_place result ≡ record { stage = Stage.Memory; offset = 2; least = 0 } }
{
    plain_walk(0, 2, 0)
}

// The next fault from a place on, in an image whose lines' numbers are marked.
pub fn next_fault(image: &[u8], marked: &[u8], place: WalkNumbers) -> FaultCode
    ensures { FaultLeft (has_mark marked.now) image.now (faults_at (has_mark marked.now) image.now (walk_place place)) result }
{
    found_code(image_fitness::next_fault(image, marked, walk_place(place)))
}

// ---- from numbers

fn walk_place(given: WalkNumbers) -> Place
    ensures { result ≡ walk_place given }
{
    Place {
        stage: stage_of(given),
        offset: given.offset,
        least: given.least,
    }
}

fn stage_of(given: WalkNumbers) -> Stage
    ensures { result ≡ stage_of given.stage given }
{
    match given.stage {
        0 => Stage::Memory,
        1 => Stage::Line(Check::Number),
        2 => Stage::Line(Check::Order),
        3 => Stage::Line(Check::Zero),
        4 => Stage::Line(Check::Length),
        5 => Stage::Line(Check::Jumps(cursor_of(given))),
        6 => Stage::Relinking,
        _ => Stage::Done,
    }
}

fn cursor_of(given: WalkNumbers) -> Cursor
    ensures { result ≡ cursor_of given }
{
    Cursor {
        at: given.at,
        mode: mode_of(given.mode),
        listed: given.listed != 0,
        part: part_of(given.begun != 0, given.value),
    }
}

fn part_of(begun: bool, value: usize) -> Option<usize>
    ensures { result ≡ part_of begun value }
{
    begun.then_some(value)
}

pub fn mode_of(number: u8) -> Mode
    ensures { result ≡ mode_of number }
{
    match number {
        1 => Mode::Quoted,
        2 => Mode::Remark,
        3 => Mode::Data,
        4 => Mode::QuotedData,
        _ => Mode::Plain,
    }
}

// ---- to numbers

fn found_code(found: Option<Found>) -> FaultCode
    ensures { result ≡ found_code found }
{
    match found {
        Some(Found { fault, place }) => fault_code(fault, walk_numbers(place)),
        None => told(0, 0, 0, plain_walk(7, 0, 0)),
    }
}

fn fault_code(fault: Fault, place: WalkNumbers) -> FaultCode
    ensures { result ≡ fault_code fault place }
{
    match fault {
        Fault::OutsideMemory { load, length } => told(1, usize::from(load), length, place),
        Fault::NumberTooHigh { number } => told(2, usize::from(number), 0, place),
        Fault::NotAscending { number } => told(3, usize::from(number), 0, place),
        Fault::ZeroInBody { number, address } => told(4, usize::from(number), address, place),
        Fault::BodyLength { number, length } => told(5, usize::from(number), length, place),
        Fault::NoTarget { number, target } => told(6, usize::from(number), target, place),
        Fault::LinkChanges { number, link } => told(
            7,
            usize::from(number),
            usize::from(link),
            place,
        ),
        Fault::LinksLeave => told(8, 0, 0, place),
        Fault::LinksEndless => told(9, 0, 0, place),
    }
}

fn told(kind: u8, first: usize, second: usize, place: WalkNumbers) -> FaultCode
    ensures { result ≡ record { kind = kind; first = first; second = second; place = place } }
{
    FaultCode {
        kind,
        first,
        second,
        place,
    }
}

fn walk_numbers(place: Place) -> WalkNumbers
    ensures { result ≡ walk_numbers place }
{
    let Place {
        stage,
        offset,
        least,
    } = place;
    match stage {
        Stage::Memory => plain_walk(0, offset, least),
        Stage::Line(check) => check_walk(check, offset, least),
        Stage::Relinking => plain_walk(6, offset, least),
        Stage::Done => plain_walk(7, offset, least),
    }
}

fn check_walk(check: Check, offset: usize, least: usize) -> WalkNumbers
    ensures { result ≡ check_walk check offset least }
{
    match check {
        Check::Number => plain_walk(1, offset, least),
        Check::Order => plain_walk(2, offset, least),
        Check::Zero => plain_walk(3, offset, least),
        Check::Length => plain_walk(4, offset, least),
        Check::Jumps(cursor) => jumps_walk(cursor, offset, least),
    }
}

fn plain_walk(stage: u8, offset: usize, least: usize) -> WalkNumbers
    ensures { result ≡ plain_walk stage offset least }
{
    WalkNumbers {
        stage,
        mode: 0,
        listed: 0,
        begun: 0,
        at: 0,
        value: 0,
        offset,
        least,
    }
}

fn jumps_walk(cursor: Cursor, offset: usize, least: usize) -> WalkNumbers
    ensures { result ≡ jumps_walk cursor offset least }
{
    WalkNumbers {
        stage: 5,
        mode: mode_number(cursor.mode),
        listed: u8::from(cursor.listed),
        begun: worth_of(cursor.part),
        at: cursor.at,
        value: value_of(cursor.part),
        offset,
        least,
    }
}

fn worth_of(part: Option<usize>) -> u8
    ensures { result ≡ worth_of part }
{
    u8::from(part.is_some())
}

fn value_of(part: Option<usize>) -> usize
    ensures { result ≡ value_of part }
{
    part.unwrap_or(0)
}

pub fn mode_number(mode: Mode) -> u8
    ensures { result ≡ mode_number mode }
{
    match mode {
        Mode::Plain => 0,
        Mode::Quoted => 1,
        Mode::Remark => 2,
        Mode::Data => 3,
        Mode::QuotedData => 4,
    }
}
