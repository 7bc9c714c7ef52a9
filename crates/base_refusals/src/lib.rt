// The refusals: what a call answers where there is no result, with the number and the values of document 01.
#![tactic(auto)]

ghost use Rattle.std.specs.Prelude.{◌≡◌};
ghost use Rattle.base_refusals.specs.Answer.{numbered as numbered_of};
ghost use Rattle.base_refusals.specs.Code.{code_of};

#[derive(Clone, Copy)]
pub enum Refusal {
    TextTooLong { length: usize },
    BadByte { offset: usize },
    // Text lines are counted from 1, blank ones too.
    MissingLineNumber { line: usize },
    LineNumberOutOfRange { line: usize, value: u32 },
    AddressOverflow,
    NoRoom { needed: usize },
    ImageTooLong { length: usize },
    TooShort,
    UnexpectedEof,
    // The offset of the link, in this and the next three.
    MissingEnd { offset: usize },
    LinkBackward { offset: usize },
    LinkOutside { offset: usize },
    LinkNoEnd { offset: usize },
    UnknownDialect,
    // Of the machine profile, in this and the next three.
    NumberTooHigh { line: usize },
    NotAscending { line: usize },
    ZeroInBody { line: usize },
    BodyLength { line: usize },
    // Of a disk, in this and the next five.
    BadDisk,
    BadName,
    NameTaken,
    NoSuchFile,
    DirectoryFull,
    DiskFull,
    // Of counting, at the 1,001st image.
    TooManyImages,
    // Of a line index, in this and the next.
    TooManyLines,
    TargetTooHigh,
}

// An answer as numbers, for callers in other languages: 0 or a refusal's number, how many values it carries, and the values, 0 where
// there is none.
#[repr(C)]
#[derive(Clone, Copy)]
pub struct Code {
    pub number: u8,
    pub count: usize,
    pub first: usize,
    pub second: usize,
}

fn bare(number: u8) -> Code
    ensures { result ≡ record { number = number; count = 0; first = 0; second = 0 } }
{
    Code {
        number,
        count: 0,
        first: 0,
        second: 0,
    }
}

// A number that carries one value.
pub fn with_one(number: u8, first: usize) -> Code
    ensures { result ≡ record { number = number; count = 1; first = first; second = 0 } }
{
    Code {
        number,
        count: 1,
        first,
        second: 0,
    }
}

fn wide(x: u32) -> usize
    ensures { result ≡ x }
{
    x as usize
}

pub fn refusal_code(refusal: Refusal) -> Code
    ensures { result ≡ code_of (numbered_of refusal) }
{
    match refusal {
        Refusal::TextTooLong { length } => with_one(1, length),
        Refusal::BadByte { offset } => with_one(2, offset),
        Refusal::MissingLineNumber { line } => with_one(3, line),
        Refusal::LineNumberOutOfRange { line, value } => Code {
            number: 4,
            count: 2,
            first: line,
            second: wide(value),
        },
        Refusal::AddressOverflow => bare(5),
        Refusal::NoRoom { needed } => with_one(6, needed),
        Refusal::ImageTooLong { length } => with_one(7, length),
        Refusal::TooShort => bare(8),
        Refusal::UnexpectedEof => bare(9),
        Refusal::MissingEnd { offset } => with_one(10, offset),
        Refusal::LinkBackward { offset } => with_one(11, offset),
        Refusal::LinkOutside { offset } => with_one(12, offset),
        Refusal::LinkNoEnd { offset } => with_one(13, offset),
        Refusal::UnknownDialect => bare(14),
        Refusal::NumberTooHigh { line } => with_one(15, line),
        Refusal::NotAscending { line } => with_one(16, line),
        Refusal::ZeroInBody { line } => with_one(17, line),
        Refusal::BodyLength { line } => with_one(18, line),
        Refusal::BadDisk => bare(20),
        Refusal::BadName => bare(21),
        Refusal::NameTaken => bare(22),
        Refusal::NoSuchFile => bare(23),
        Refusal::DirectoryFull => bare(24),
        Refusal::DiskFull => bare(25),
        Refusal::TooManyImages => bare(26),
        Refusal::TooManyLines => bare(27),
        Refusal::TargetTooHigh => bare(28),
    }
}
