// Numbers in an escape. A number that passes its limit is none, however many digits follow.
#![tactic(auto)]

ghost use Rattle.std.specs.Prelude.{◌≡◌, ◌≤◌, ◌<◌};
ghost use Rattle.escape_numbers.specs.Numbers.{digit_of, number_of, hex_of, count_of, unsigned};
ghost use Rattle.escape_numbers.specs.NumbersHelpers.{countable};

// What a byte counts as a digit: 0 to 9, and a letter from 10 on; 36 for the rest.
fn digit_of(b: u8) -> u64
    ensures { result ≡ digit_of b }
{
    if base_ascii::is_digit(b) {
        return u64::from(b - b'0');
    }
    if base_ascii::is_letter(b) {
        return u64::from(base_ascii::upper(b) - 55);
    }
    36
}

// The number that one or more digits make, if it is within the limit.
pub fn number_in(s: &[u8], base: u64, limit: u64) -> Option<u64>
    requires { (0 < base) × (base ≤ limit) }
    ensures { result ≡ number_of base limit s.now }
{
    if s.is_empty() {
        return None;
    }
    let mut n: u64 = 0;
    for b in s {
        let d = digit_of(*b);
        if base <= d {
            return None;
        }
        if n > (limit - d) / base {
            return None;
        }
        n = n * base + d;
    }
    Some(n)
}

// $ and hex digits, up to 255.
pub fn hex_number(s: &[u8]) -> Option<u64>
    ensures { result ≡ hex_of s.now }
{
    match s {
        [b'$', digits @ ..] => number_in(digits, 16, 255),
        _ => None,
    }
}

// A leading + is left out.
fn without_plus(s: &[u8]) -> &[u8]
    ensures { result.now ≡ unsigned s.now }
{
    match s {
        [b'+', digits @ ..] => digits,
        _ => s,
    }
}

// The count that a text is.
pub fn count_of(s: &[u8]) -> Option<u64>
    ensures { result ≡ count_of s.now }
{
    number_in(without_plus(s), 10, u64::MAX)
}

// Whether a count can stand at the end of a text: only where the last byte is a digit or white space.
pub fn may_end_in_count(text: &[u8]) -> bool
    ensures { result ≡ countable text.now }
{
    match text.last() {
        Some(last) => base_ascii::is_digit(*last) || base_ascii::is_space(*last),
        None => false,
    }
}
