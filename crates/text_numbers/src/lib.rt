// The number of a line, and where its body stands.
#![tactic(auto)]

ghost use Rattle.std.specs.Prelude.{◌≡◌, ◌+◌, ◌*◌, min};
ghost use Rattle.text_numbers.specs.NumberHelpers.{digits_in as digits_of, numbering};

use base_ascii::search;
use base_ascii::search::Kind;

// Decimal digits in front of a text: how many, and their value. One past 32 bits is 4,294,967,295.
#[derive(Clone, Copy)]
pub struct Digits {
    pub count: usize,
    pub value: u32,
}

#[derive(Clone, Copy)]
pub enum Numbering {
    // Nothing but white space.
    Blank,
    // No digit in front.
    Missing,
    // Above 65535.
    OutOfRange {
        value: u32,
    },
    // The body is the line's part from body_from up to body_to.
    Numbered {
        number: u16,
        body_from: usize,
        body_to: usize,
    },
}

// A number with one digit more, or the largest of 32 bits.
fn with_digit(value: u32, digit: u8) -> u32
    ensures { result ≡ min (value * 10 + digit) 4294967295 }
{
    value.saturating_mul(10).saturating_add(u32::from(digit))
}

fn digits_in(text: &[u8]) -> Digits
    ensures { result ≡ digits_of text.now }
{
    let mut value: u32 = 0;
    for (count, b) in text.iter().enumerate() {
        if !base_ascii::is_digit(*b) {
            return Digits { count, value };
        }
        value = with_digit(value, *b - 48);
    }
    Digits {
        count: text.len(),
        value,
    }
}

// What a line is: both ends trimmed, then its digits, then spaces, then the body. Most blank lines are empty, and that
// test alone stands where the call does.
#[inline(always)]
pub fn number_line(line: &[u8]) -> Numbering
    ensures { result ≡ numbering line.now }
{
    if line.is_empty() {
        return Numbering::Blank;
    }
    number_filled(line)
}

// The same of a line that mostly has bytes.
fn number_filled(line: &[u8]) -> Numbering
    ensures { result ≡ numbering line.now }
{
    let text = base_ascii::trim(line);
    if text.is_empty() {
        return Numbering::Blank;
    }
    let Digits { count, value } = digits_in(text);
    if count == 0 {
        return Numbering::Missing;
    }
    let Ok(number) = u16::try_from(value) else {
        return Numbering::OutOfRange { value };
    };
    let spaces = search::front(&text[count..], Kind::Space);
    let from = base_ascii::leading_space(line);
    Numbering::Numbered {
        number,
        body_from: from + count + spaces,
        body_to: from + text.len(),
    }
}
