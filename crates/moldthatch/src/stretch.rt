// The listing of a line in stretches. What is left of the line is carried in numbers from call to call.
ghost use Rattle.std.specs.Prelude.{◌≡◌};
ghost use Rattle.base_refusals.specs.Answer.{numbered};
ghost use Rattle.base_refusals.specs.Code.{code_of};
ghost use Rattle.moldthatch.specs.ToldStretch.{stretch_place, place_numbers, stretch_code, stretched_with};

use base_refusals::{Code, Refusal};
use library_numbers::{ListNumbers, list_options};
use list_stretches::{Place, Stretch};

// What is left of a line: of kind 0 all of it, with its number; of kind 1 its body from a place on, in a mode, and the line's end; of any
// other kind nothing. A mode is 1 in quotes, 2 in a remark, 3 in DATA, 4 in quotes there, and any other number in none of them.
#[repr(C)]
#[derive(Clone, Copy)]
pub struct PlaceNumbers {
    pub kind: u8,
    pub mode: u8,
    pub number: u16,
    pub at: usize,
}

// How many bytes a stretch has, or why there is none, and what is left behind it.
#[repr(C)]
#[derive(Clone, Copy)]
pub struct StretchCode {
    pub code: Code,
    pub place: PlaceNumbers,
}

// Stores at a buffer's start what it holds of a line from a place on.
#[unsafe(no_mangle)]
pub extern "C" fn moldthatch_list_stretch(
    body: &[u8],
    options: ListNumbers,
    place: PlaceNumbers,
    out: &mut [u8],
) -> StretchCode
    ensures { record { told = result; buffer = out.new } ≡ stretched_with options body.now place out.old }
{
    match word_dialects::dialect_by_number(options.dialect) {
        Ok(known) => stretch_code(list_stretches::list_stretch(
            body,
            list_options(options, known),
            place_of(place),
            out,
        )),
        Err(refusal) => refused_stretch(refusal, place),
    }
}

fn stretch_code(stretch: Stretch) -> StretchCode
    ensures { result ≡ stretch_code stretch }
{
    StretchCode {
        code: base_refusals::with_one(0, stretch.length),
        place: place_numbers(stretch.place),
    }
}

fn refused_stretch(refusal: Refusal, place: PlaceNumbers) -> StretchCode
    ensures { result ≡ record { code = code_of (numbered refusal); place = place } }
{
    StretchCode {
        code: base_refusals::refusal_code(refusal),
        place,
    }
}

fn place_of(given: PlaceNumbers) -> Place
    ensures { result ≡ stretch_place given }
{
    match given.kind {
        0 => Place::Number(given.number),
        1 => Place::Body {
            at: given.at,
            mode: library_numbers::faults::mode_of(given.mode),
        },
        _ => Place::Over,
    }
}

fn place_numbers(place: Place) -> PlaceNumbers
    ensures { result ≡ place_numbers place }
{
    match place {
        Place::Number(number) => PlaceNumbers {
            kind: 0,
            mode: 0,
            number,
            at: 0,
        },
        Place::Body { at, mode } => PlaceNumbers {
            kind: 1,
            mode: library_numbers::faults::mode_number(mode),
            number: 0,
            at,
        },
        Place::Over => PlaceNumbers {
            kind: 2,
            mode: 0,
            number: 0,
            at: 0,
        },
    }
}
