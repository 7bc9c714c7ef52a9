// The writing pass: the image of a text that has one, in a buffer that has the room.
#![tactic(auto)]

ghost use Rattle.std.specs.Prelude.{◌≡◌, ◌≤◌, false, Ok};
ghost use Rattle.base_lent.specs.Lent.{into_buffer, left};
ghost use Rattle.base_lent.specs.Stores.{Room, Put, HasRoom};
ghost use Rattle.body_rules.specs.Lexicon.{lexicon};
ghost use Rattle.image_layout.specs.Layout.{lines_bytes, two_bytes};
ghost use Rattle.crunch_rules.specs.Crunched.{text_line};
ghost use Rattle.crunch_rules.specs.PassesHelpers.{text_image, given};
ghost use Rattle.crunch_write.specs.FrameHelpers.{FrameRoom, Framed};

use text_lines::LineRule;
use text_numbers::Numbering;
use word_match::sets::Sets;
use word_tables::Words;

// Writes the image, and answers its length.
pub fn write(out: &mut [u8], text: &[u8], load: u16, words: Words, sets: Sets) -> usize
    requires { HasRoom out.old (text_image false (lexicon sets) load text.now) }
    ensures { left (Ok result) out.new ≡ into_buffer (text_image false (lexicon sets) load text.now) out.old }
{
    let first = load as usize;
    let mut to = put_two(out, 0, load);
    let mut at: usize = 0;
    while at < text.len() {
        let next = text_lines::next_line(text, at, LineRule::AfterCr);
        let line = &text[next.begin..next.end];
        let address = first + to - 2;
        to += write_line(&mut out[to..], address, line, words, sets);
        at = next.next;
    }
    put_two(out, to, 0)
}

// Writes what a text line gives at an address to the start of a buffer, and answers how many bytes that is.
fn write_line(out: &mut [u8], address: usize, line: &[u8], words: Words, sets: Sets) -> usize
    requires { (address ≤ 0xFFFF) × Room out.old 0 (lines_bytes address (given (text_line (lexicon sets) 0 line.now))) }
    ensures { Put out.old 0 (lines_bytes address (given (text_line (lexicon sets) 0 line.now))) result out.new }
{
    match text_numbers::number_line(line) {
        Numbering::Blank | Numbering::Missing | Numbering::OutOfRange { value: _ } => 0,
        Numbering::Numbered {
            number,
            body_from,
            body_to,
        } => {
            let body = &line[body_from..body_to];
            let length = body::write_body(&mut out[4..], body, words, sets);
            put_frame(out, address, number, length)
        }
    }
}

// Writes the link and the number in front of a body, and the 00 behind it.
fn put_frame(out: &mut [u8], address: usize, number: u16, length: usize) -> usize
    requires { FrameRoom address length out.old }
    ensures { Framed address number length out.old result out.new }
{
    let link = (address + 5 + length) % 0x1_0000;
    put_two(out, 0, link as u16);
    put_two(out, 2, number);
    out[length + 4] = 0;
    length + 5
}

// Writes a number, low byte first, and answers the place behind it.
fn put_two(out: &mut [u8], at: usize, n: u16) -> usize
    requires { Room out.old at (two_bytes n) }
    ensures { Put out.old at (two_bytes n) result out.new }
{
    out[at..at + 2].copy_from_slice(&n.to_le_bytes());
    at + 2
}
