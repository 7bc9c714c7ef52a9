// Bytes as ASCII text: letters without regard to case, digits, white space, trimming; and searches in bytes.
#![tactic(auto)]

ghost use Rattle.std.specs.Prelude.{◌≡◌, length};
ghost use Rattle.base_ascii.specs.Bytes.{between as between_of, upper as upper_of, is_digit, is_letter, is_space, is_ascii};
ghost use Rattle.base_ascii.specs.Search.{front, past_end};
ghost use Rattle.base_ascii.specs.Trim.{trim as trim_of};

pub mod search;

// A byte as a length or a place.
pub fn wide(b: u8) -> usize
    ensures { result ≡ b }
{
    b as usize
}

// The same of a number of 16 bits.
pub fn wide16(n: u16) -> usize
    ensures { result ≡ n }
{
    n as usize
}

// Whether b is one of the bytes low to high.
pub fn between(low: u8, high: u8, b: u8) -> bool
    ensures { result ≡ between_of low high b }
{
    low <= b && b <= high
}

// a to z become A to Z.
pub fn upper(b: u8) -> u8
    ensures { result ≡ upper_of b }
{
    if between(97, 122, b) { b - 32 } else { b }
}

pub fn is_digit(b: u8) -> bool
    ensures { result ≡ is_digit b }
{
    between(48, 57, b)
}

pub fn is_letter(b: u8) -> bool
    ensures { result ≡ is_letter b }
{
    between(65, 90, upper(b))
}

// The white space that trimming removes.
pub fn is_space(b: u8) -> bool
    ensures { result ≡ is_space b }
{
    b == 32 || between(9, 13, b)
}

// Whether each byte is below 80.
pub fn is_ascii(s: &[u8]) -> bool
    ensures { result ≡ is_ascii s.now }
{
    s.iter().all(|b| *b < 0x80)
}

// How many bytes of white space stand in front. This and the next run for each text line, so they do not call `search`, which asks for the kind at each byte.
pub fn leading_space(s: &[u8]) -> usize
    ensures { result ≡ front is_space s.now }
{
    s.iter().take_while(|b| is_space(**b)).count()
}

// How many bytes are left without the white space at the end.
pub fn solid_length(s: &[u8]) -> usize
    ensures { result ≡ length (past_end is_space s.now) }
{
    s.len() - s.iter().rev().take_while(|b| is_space(**b)).count()
}

// What is left without the white space at both ends.
pub fn trim(s: &[u8]) -> &[u8]
    ensures { result.now ≡ trim_of s.now }
{
    let from = leading_space(s);
    let rest = &s[from..];
    let to = solid_length(rest);
    &rest[..to]
}
