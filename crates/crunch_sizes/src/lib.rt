// How long a text line becomes at an address, or its refusal; and a bound of that length.
#![tactic(auto)]

ghost use Rattle.std.specs.Prelude.{◌≡◌, ◌≤◌};
ghost use Rattle.body_rules.specs.Lexicon.{lexicon};
ghost use Rattle.crunch_rules.specs.Crunched.{line_under};
ghost use Rattle.crunch_sizes.specs.SizeHelpers.{SizedAs, sized_at, Bounded};

use base_refusals::Refusal;
use body::zero;
use text_numbers::Numbering;
use word_match::sets::Sets;
use word_tables::Words;

// The line that a text line gives: its number, and the address behind it.
#[derive(Clone, Copy)]
pub struct SizedLine {
    pub number: u16,
    pub behind: usize,
}

// Where a text line is met: whether the profile is asked, the line's place from 1, the least number that it may have, and the address of its
// own line.
#[derive(Clone, Copy)]
pub struct Spot {
    pub profile: bool,
    pub k: usize,
    pub least: usize,
    pub address: usize,
}

// What a text line gives: a line, or none where it is blank.
pub fn measure_line(
    line: &[u8],
    spot: Spot,
    words: Words,
    sets: Sets,
) -> Result<Option<SizedLine>, Refusal>
    requires { (spot.address ≤ 0xFFFF) }
    ensures { SizedAs spot.address (line_under spot.profile (lexicon sets) spot.k spot.least line.now) result }
{
    let k = spot.k;
    match text_numbers::number_line(line) {
        Numbering::Blank => Ok(None),
        Numbering::Missing => Err(Refusal::MissingLineNumber { line: k }),
        Numbering::OutOfRange { value } => Err(Refusal::LineNumberOutOfRange { line: k, value }),
        Numbering::Numbered {
            number,
            body_from,
            body_to,
        } => {
            let body = &line[body_from..body_to];
            let length = body::measure_body(body, words, sets);
            if spot.profile {
                let zero = zero::holds_zero(body, words, sets);
                crunch_profile::allow_line(k, spot.least, number, zero, length)?;
            }
            Ok(Some(size_line(spot.address, number, length)?))
        }
    }
}

// A line at an address, with a body of so many bytes.
fn size_line(address: usize, number: u16, length: usize) -> Result<SizedLine, Refusal>
    requires { (address ≤ 0xFFFF) × (length ≤ 65536) }
    ensures { result ≡ sized_at address number length }
{
    let behind = address + 5 + length;
    if behind > 0xFFFF {
        return Err(Refusal::AddressOverflow);
    }
    Ok(SizedLine { number, behind })
}

// An address beyond which the line that a text line gives does not reach; one above FFFF where the text line may be refused.
pub fn bound_line(line: &[u8], address: usize, words: Words, sets: Sets) -> usize
    requires { (address ≤ 0xFFFF) }
    ensures { Bounded (lexicon sets) address line.now result }
{
    match text_numbers::number_line(line) {
        Numbering::Blank => address,
        Numbering::Missing => 0x10000,
        Numbering::OutOfRange { value: _ } => 0x10000,
        Numbering::Numbered {
            number: _,
            body_from,
            body_to,
        } => {
            let length = body::bound_body(&line[body_from..body_to], words, sets);
            address + 5 + length
        }
    }
}
