// The library for C and for Rust: its calls take and give numbers and slices. A dialect is 0 for Auto, 1 for BASIC V2, 2 for TSB,
// 3 for BASIC 3.5. A choice is 0 for no, and any other number for yes.
#![tactic(auto)]

ghost use Rattle.std.specs.Prelude.{◌≡◌};
ghost use Rattle.base_refusals.specs.Code.{length_code};
ghost use Rattle.base_lent.specs.Lent.{into_buffer, room_for};
ghost use Rattle.image_readers.specs.Lines.{overview};
ghost use Rattle.image_readers.specs.Links.{link_step};
ghost use Rattle.image_readers.specs.Terminators.{terminator_step};
ghost use Rattle.list_image.specs.Listing.{listing};
ghost use Rattle.say_put.specs.Clipped.{Clipped};
ghost use Rattle.say_sentences.specs.Sentence.{sentence};
ghost use Rattle.library_numbers.specs.Overview.{overview_code};
ghost use Rattle.moldthatch.specs.Given.{crunched_with, crunched_by, listed_with, listed_by};
ghost use Rattle.moldthatch.specs.Told.{told_code};

use base_refusals::Code;
use image_readers::{links, terminators};
use library_numbers::{CrunchNumbers, ListNumbers};

pub mod counts;
pub mod dialects;
pub mod digests;
pub mod disks;
pub mod fault_calls;
pub mod indexes;
pub mod lines;
pub mod stretch;

// Crunches a text with options into the start of a buffer: the image's length.
#[unsafe(no_mangle)]
pub extern "C" fn moldthatch_crunch_with(
    text: &[u8],
    options: CrunchNumbers,
    out: &mut [u8],
) -> Code
    ensures { record { code = result; buffer = out.new } ≡ told_code (into_buffer (crunched_with options text.now) out.old) }
{
    match word_dialects::dialect_by_number(options.dialect) {
        Ok(known) => {
            base_lent::outcome_code(crunch_image::crunch(
                text,
                library_numbers::crunch_options(options, known),
                out,
            ))
        }
        Err(refusal) => base_refusals::refusal_code(refusal),
    }
}

// The room that this image needs.
#[unsafe(no_mangle)]
pub extern "C" fn moldthatch_crunch_with_room(text: &[u8], options: CrunchNumbers) -> Code
    ensures { result ≡ length_code (room_for (crunched_with options text.now)) }
{
    match word_dialects::dialect_by_number(options.dialect) {
        Ok(known) => base_lent::outcome_code(crunch_image::room(
            text,
            library_numbers::crunch_options(options, known),
        )),
        Err(refusal) => base_refusals::refusal_code(refusal),
    }
}

// Crunches a text into the start of a buffer, without the profile and without short forms: the image's length.
#[unsafe(no_mangle)]
pub extern "C" fn moldthatch_crunch(text: &[u8], load: u16, dialect: u8, out: &mut [u8]) -> Code
    ensures { record { code = result; buffer = out.new } ≡ told_code (into_buffer (crunched_by dialect load text.now) out.old) }
{
    moldthatch_crunch_with(
        text,
        CrunchNumbers {
            load,
            dialect,
            profile: 0,
            forms: 0,
        },
        out,
    )
}

// The room that this image needs.
#[unsafe(no_mangle)]
pub extern "C" fn moldthatch_crunch_room(text: &[u8], load: u16, dialect: u8) -> Code
    ensures { result ≡ length_code (room_for (crunched_by dialect load text.now)) }
{
    moldthatch_crunch_with_room(
        text,
        CrunchNumbers {
            load,
            dialect,
            profile: 0,
            forms: 0,
        },
    )
}

// Lists an image into the start of a buffer: the listing's length.
#[unsafe(no_mangle)]
pub extern "C" fn moldthatch_list(image: &[u8], out: &mut [u8]) -> Code
    ensures { record { code = result; buffer = out.new } ≡ told_code (into_buffer (listing image.now) out.old) }
{
    base_lent::outcome_code(list_image::list(image, out))
}

// The room that the listing of an image needs.
#[unsafe(no_mangle)]
pub extern "C" fn moldthatch_list_room(image: &[u8]) -> Code
    ensures { result ≡ length_code (room_for (listing image.now)) }
{
    base_lent::outcome_code(list_image::room(image))
}

// Lists an image with options into the start of a buffer: the listing's length.
#[unsafe(no_mangle)]
pub extern "C" fn moldthatch_list_with(image: &[u8], options: ListNumbers, out: &mut [u8]) -> Code
    ensures { record { code = result; buffer = out.new } ≡ told_code (into_buffer (listed_with options image.now) out.old) }
{
    match word_dialects::dialect_by_number(options.dialect) {
        Ok(known) => {
            base_lent::outcome_code(list_image::list_under(
                image,
                library_numbers::list_options(options, known),
                out,
            ))
        }
        Err(refusal) => base_refusals::refusal_code(refusal),
    }
}

// The room that this listing needs.
#[unsafe(no_mangle)]
pub extern "C" fn moldthatch_list_with_room(image: &[u8], options: ListNumbers) -> Code
    ensures { result ≡ length_code (room_for (listed_with options image.now)) }
{
    match word_dialects::dialect_by_number(options.dialect) {
        Ok(known) => {
            base_lent::outcome_code(list_image::room_under(
                image,
                library_numbers::list_options(options, known),
            ))
        }
        Err(refusal) => base_refusals::refusal_code(refusal),
    }
}

// Lists an image under a dialect into the start of a buffer, in the first mode and by terminators: the listing's length.
#[unsafe(no_mangle)]
pub extern "C" fn moldthatch_list_under(image: &[u8], dialect: u8, out: &mut [u8]) -> Code
    ensures { record { code = result; buffer = out.new } ≡ told_code (into_buffer (listed_by dialect image.now) out.old) }
{
    moldthatch_list_with(
        image,
        ListNumbers {
            dialect,
            remarks: 0,
            links: 0,
        },
        out,
    )
}

// The room that this listing needs.
#[unsafe(no_mangle)]
pub extern "C" fn moldthatch_list_under_room(image: &[u8], dialect: u8) -> Code
    ensures { result ≡ length_code (room_for (listed_by dialect image.now)) }
{
    moldthatch_list_with_room(
        image,
        ListNumbers {
            dialect,
            remarks: 0,
            links: 0,
        },
    )
}

// Reads a whole image by its links: its load address and how many lines it has.
#[unsafe(no_mangle)]
pub extern "C" fn moldthatch_check(image: &[u8]) -> Code
    ensures { result ≡ overview_code (overview link_step image.now) }
{
    library_numbers::checked_code(links::check(image))
}

// The same by terminators.
#[unsafe(no_mangle)]
pub extern "C" fn moldthatch_check_terminators(image: &[u8]) -> Code
    ensures { result ≡ overview_code (overview terminator_step image.now) }
{
    library_numbers::checked_code(terminators::check(image))
}

// Stores the sentence of a refusal at the start of a buffer, as much of it as fits: how many bytes that are.
#[unsafe(no_mangle)]
pub extern "C" fn moldthatch_sentence(
    number: u8,
    first: usize,
    second: usize,
    out: &mut [u8],
) -> usize
    ensures { Clipped out.old 0 (sentence (record { number = number; count = 2; first = first; second = second })) result out.new }
{
    say_sentences::sentence(
        Code {
            number,
            count: 2,
            first,
            second,
        },
        out,
    )
}
