// Numbers of the library for C and Rust (crates/moldthatch): the options that a caller gives in them, what an image's check is told in, and the
// walk over a program's faults.
#![tactic(auto)]

pub mod faults;

ghost use Rattle.std.specs.Prelude.{◌≡◌};
ghost use Rattle.library_numbers.specs.Choices.{crunch_options, reader_by, list_options};
ghost use Rattle.library_numbers.specs.Overview.{overview_code};
ghost use Rattle.base_refusals.specs.Answer.{answered};

use base_refusals::{Code, Refusal};
use crunch_rules::Options;
use image_readers::{By, Overview};
use list_options::ListOptions;
use word_dialects::Dialect;

// What a text is crunched with: where its image begins, its dialect, whether the machine profile is asked, and whether short forms are taken.
#[repr(C)]
#[derive(Clone, Copy)]
pub struct CrunchNumbers {
    pub load: u16,
    pub dialect: u8,
    pub profile: u8,
    pub forms: u8,
}

// How an image is listed: under a dialect, with remarks as text or not, by links or by terminators.
#[repr(C)]
#[derive(Clone, Copy)]
pub struct ListNumbers {
    pub dialect: u8,
    pub remarks: u8,
    pub links: u8,
}

// The options of a dialect that is known by now.
pub fn crunch_options(given: CrunchNumbers, dialect: Dialect) -> Options
    ensures { result ≡ crunch_options given dialect }
{
    Options {
        load: given.load,
        dialect,
        profile: given.profile != 0,
        forms: given.forms != 0,
    }
}

pub fn list_options(given: ListNumbers, dialect: Dialect) -> ListOptions
    ensures { result ≡ list_options given dialect }
{
    ListOptions {
        dialect,
        remarks: given.remarks != 0,
        by: reader(given.links != 0),
    }
}

fn reader(links: bool) -> By
    ensures { result ≡ reader_by links }
{
    if links { By::Links } else { By::Terminators }
}

pub fn checked_code(checked: Result<Overview, Refusal>) -> Code
    ensures { result ≡ overview_code (answered checked) }
{
    match checked {
        Ok(Overview { load, lines }) => Code {
            number: 0,
            count: 2,
            first: usize::from(load),
            second: lines,
        },
        Err(refusal) => base_refusals::refusal_code(refusal),
    }
}
