// Line indexes, and what the machine's relinking makes of an image.
ghost use Rattle.std.specs.Prelude.{◌≡◌};
ghost use Rattle.base_lent.specs.Lent.{into_buffer};
ghost use Rattle.image_index.specs.Index.{line_index, jump_report};
ghost use Rattle.image_index_entries.specs.Entries.{entry_of, look_up};
ghost use Rattle.image_index_entries.specs.declared.Kind.TheVariants.{Line, Jump};
ghost use Rattle.image_relink.specs.Relinking.{relinking, relinked_answer};
ghost use Rattle.moldthatch.specs.Told.{told_code, held_code, relinking_code};

use base_refusals::Code;
use image_index_entries::{Kind, Numbers};
use image_relink::Relinked;

// Writes the line index of an image into the start of a buffer: its length.
#[unsafe(no_mangle)]
pub extern "C" fn moldthatch_index(image: &[u8], out: &mut [u8]) -> Code
    ensures { record { code = result; buffer = out.new } ≡ told_code (into_buffer (line_index image.now) out.old) }
{
    base_lent::outcome_code(image_index::write_index(image, out))
}

// Writes the report of an image's jumps to lines that it does not have into the start of a buffer: its length.
#[unsafe(no_mangle)]
pub extern "C" fn moldthatch_index_report(image: &[u8], out: &mut [u8]) -> Code
    ensures { record { code = result; buffer = out.new } ≡ told_code (into_buffer (jump_report image.now) out.old) }
{
    base_lent::outcome_code(image_index::write_report(image, out))
}

// The line at a place of an index, from 1: its number and the offset of its link.
#[unsafe(no_mangle)]
pub extern "C" fn moldthatch_index_line(place: usize, index: &[u8]) -> Code
    ensures { result ≡ held_code (entry_of Line place index.now) }
{
    held_code(image_index_entries::entry(Kind::Line, place, index))
}

// The jump at a place of an index, from 1: its line's place and its target.
#[unsafe(no_mangle)]
pub extern "C" fn moldthatch_index_jump(place: usize, index: &[u8]) -> Code
    ensures { result ≡ held_code (entry_of Jump place index.now) }
{
    held_code(image_index_entries::entry(Kind::Jump, place, index))
}

// The first line with a number: its place from 1, and the offset of its link.
#[unsafe(no_mangle)]
pub extern "C" fn moldthatch_index_look_up(number: usize, index: &[u8]) -> Code
    ensures { result ≡ held_code (look_up number index.now) }
{
    held_code(image_index_entries::look_up(number, index))
}

fn held_code(held: Option<Numbers>) -> Code
    ensures { result ≡ held_code held }
{
    match held {
        None => Code {
            number: 0,
            count: 0,
            first: 0,
            second: 0,
        },
        Some(Numbers { first, second }) => Code {
            number: 0,
            count: 2,
            first,
            second,
        },
    }
}

// What the machine makes of an image's links after loading it.
#[unsafe(no_mangle)]
pub extern "C" fn moldthatch_relink(image: &[u8]) -> Code
    ensures { result ≡ relinking_code (relinking image.now) }
{
    match image_relink::relink(image) {
        Ok(Relinked::Same) => Code {
            number: 0,
            count: 0,
            first: 0,
            second: 0,
        },
        Ok(Relinked::Changed { offset, link }) => Code {
            number: 0,
            count: 2,
            first: offset,
            second: usize::from(link),
        },
        Ok(Relinked::Leaves) => base_refusals::with_one(0, 0),
        Ok(Relinked::Endless) => base_refusals::with_one(0, 1),
        Err(refusal) => base_refusals::refusal_code(refusal),
    }
}
