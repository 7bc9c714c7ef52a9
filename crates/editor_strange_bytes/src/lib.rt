// Bytes that no text may hold, and what they are: mostly characters of UTF-8 that an author's editor has put in.
#![tactic(auto)]

ghost use Rattle.std.specs.Prelude.{◌≡◌, get_or};
ghost use Rattle.editor_strange_bytes.specs.Foreign.{is_inner, inner_behind, inner_asked, width_of, is_utf16, is_curly_quote, is_no_break_space, is_long_dash, kind_of, first_stranger};

// What stands at a byte outside the domain.
#[derive(Clone, Copy)]
pub enum Foreign {
    OrderMark,
    CurlyQuote,
    NoBreakSpace,
    LongDash,
    // Any other character of UTF-8.
    Character,
    // A byte that begins no character of UTF-8.
    LoneByte,
}

// Bytes that lie outside the domain: where they stand, what they are, and how many.
#[derive(Clone, Copy)]
pub struct Stranger {
    pub offset: usize,
    pub kind: Foreign,
    pub used: usize,
}

// A text is longer than one may be.
#[derive(Clone, Copy)]
pub struct TooLong;

// The byte at a place; 0 behind the end.
fn byte_at(text: &[u8], i: usize) -> u8
    ensures { result ≡ get_or text.now i 0 }
{
    text.get(i).copied().unwrap_or(0)
}

// Whether a byte stands within a character of UTF-8, and not in front of it.
fn is_inner(b: u8) -> bool
    ensures { result ≡ is_inner b }
{
    base_ascii::between(0x80, 0xBF, b)
}

// How many such bytes stand behind the first one, up to three.
fn inner_behind(text: &[u8]) -> usize
    ensures { result ≡ inner_behind text.now }
{
    text.iter()
        .skip(1)
        .take(3)
        .take_while(|b| is_inner(**b))
        .count()
}

// How many a first byte asks for; 0 where it begins no character of several bytes.
fn inner_asked(b: u8) -> usize
    ensures { result ≡ inner_asked b }
{
    match b {
        0xC2..=0xDF => 1,
        0xE0..=0xEF => 2,
        0xF0..=0xF4 => 3,
        _ => 0,
    }
}

// How many bytes the character in front takes.
fn width(text: &[u8]) -> usize
    ensures { result ≡ width_of text.now }
{
    let asked = inner_asked(byte_at(text, 0));
    if asked <= inner_behind(text) {
        asked + 1
    } else {
        1
    }
}

// Whether a text begins as one in UTF-16 does.
pub fn is_utf16(text: &[u8]) -> bool
    ensures { result ≡ is_utf16 text.now }
{
    word_search::begins(&[0xFF, 0xFE], text) || word_search::begins(&[0xFE, 0xFF], text)
}

fn is_curly_quote(text: &[u8]) -> bool
    ensures { result ≡ is_curly_quote text.now }
{
    if word_search::begins(&[0xE2, 0x80], text) {
        base_ascii::between(0x98, 0x9F, byte_at(text, 2))
    } else {
        base_ascii::between(0x91, 0x94, byte_at(text, 0))
    }
}

fn is_no_break_space(text: &[u8]) -> bool
    ensures { result ≡ is_no_break_space text.now }
{
    word_search::begins(&[0xC2, 0xA0], text) || word_search::begins(&[0xA0], text)
}

fn is_long_dash(text: &[u8]) -> bool
    ensures { result ≡ is_long_dash text.now }
{
    word_search::begins(&[0xE2, 0x80], text) && base_ascii::between(0x92, 0x95, byte_at(text, 2))
}

// What stands in front of a text.
fn kind_of(text: &[u8]) -> Foreign
    ensures { result ≡ kind_of text.now }
{
    if word_search::begins(&[0xEF, 0xBB, 0xBF], text) {
        Foreign::OrderMark
    } else if is_curly_quote(text) {
        Foreign::CurlyQuote
    } else if is_no_break_space(text) {
        Foreign::NoBreakSpace
    } else if is_long_dash(text) {
        Foreign::LongDash
    } else if width(text) > 1 {
        Foreign::Character
    } else {
        Foreign::LoneByte
    }
}

// The first bytes from a place on that no text may hold, if there are any.
pub fn next_stranger(text: &[u8], from: usize) -> Result<Option<Stranger>, TooLong>
    ensures { result ≡ first_stranger text.now from }
{
    if text.len() <= from {
        return Ok(None);
    }
    let rest = &text[from..];
    if rest.len() > 1048576 {
        return Err(TooLong);
    }
    match text_domain::check_text(rest) {
        Ok(()) => Ok(None),
        Err(refusal) => {
            // It is a byte outside the domain: the length is in order.
            let fine = base_refusals::refusal_code(refusal).first;
            let strange = &rest[fine..];
            Ok(Some(Stranger {
                offset: from + fine,
                kind: kind_of(strange),
                used: width(strange),
            }))
        }
    }
}
