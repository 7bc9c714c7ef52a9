// A name and its count between braces, wherever the count stands.
ghost use Rattle.std.specs.Prelude.{◌≡◌};
ghost use Rattle.editor_near_names.specs.Parts.{digits_of, name_part, count_part};

use base_ascii::search;
use base_ascii::search::Kind;

// The name, without its count and the white space at its ends.
pub fn name_part(inside: &[u8]) -> &[u8]
    ensures { result.now ≡ name_part inside.now }
{
    let text = base_ascii::trim(inside);
    let digits = search::front(text, Kind::Digit);
    if digits > 0 {
        return base_ascii::trim(&text[digits..]);
    }
    let star = search::before(text, Kind::Is(b'*'));
    base_ascii::trim(&text[..star])
}

// The digits of the count, without zeros in front; none where there is no count.
pub fn count_part(inside: &[u8]) -> &[u8]
    ensures { result.now ≡ count_part inside.now }
{
    let text = base_ascii::trim(inside);
    if search::front(text, Kind::Digit) > 0 {
        return digits_of(text);
    }
    let star = search::before(text, Kind::Is(b'*'));
    if text.len() <= star {
        return &text[..0];
    }
    digits_of(base_ascii::trim(&text[star + 1..]))
}

// The digits in front of a text, without the zeros in front of them.
fn digits_of(text: &[u8]) -> &[u8]
    ensures { result.now ≡ digits_of text.now }
{
    let n = search::front(text, Kind::Digit);
    let digits = &text[..n];
    let zeros = search::front(digits, Kind::Is(b'0'));
    &digits[zeros..]
}
