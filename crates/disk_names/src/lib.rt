// Names of files on a disk as they are given on a command line, and as they are shown there.
#![tactic(auto)]

ghost use Rattle.std.specs.Prelude.{◌≡◌, ◌≤◌, length};
ghost use Rattle.say_put.specs.Clipped.{Clipped};
ghost use Rattle.disk_names.specs.Names.{digit_value, byte_form, character_byte, name_given, is_shown, byte_shown, name_shown};
ghost use Rattle.disk_names.specs.Words.{given_file, given_text};

use base_ascii::search;
use base_ascii::search::Kind;
use list_bytes::hex_digit;
use say_put::put_text;

// The value of a hex digit, and 16 for any other byte.
fn digit_value(b: u8) -> u8
    ensures { result ≡ digit_value b }
{
    if base_ascii::is_digit(b) {
        return b - 48;
    }
    let capital = base_ascii::upper(b);
    if base_ascii::between(65, 70, capital) {
        return capital - 55;
    }
    16
}

// The byte that two hex digits between braces at a text's start stand for.
fn byte_form(s: &[u8]) -> Option<u8>
    ensures { result ≡ byte_form s.now }
{
    if s.len() < 4 {
        return None;
    }
    if s[0] != b'{' {
        return None;
    }
    if s[3] != b'}' {
        return None;
    }
    let high = digit_value(s[1]);
    if high > 15 {
        return None;
    }
    let low = digit_value(s[2]);
    if low > 15 {
        return None;
    }
    Some(16 * high + low)
}

// The byte that a character stands for; A0, which no name may hold, where it stands for none.
fn character(b: u8) -> u8
    ensures { result ≡ character_byte b }
{
    let capital = base_ascii::upper(b);
    if base_ascii::between(0x20, 0x5F, capital) {
        return capital;
    }
    0xA0
}

// Stores the name that a text stands for at the start of a buffer, as much of it as fits, and answers how many bytes that are. A step takes
// one byte or four, so it is no `for`.
pub fn given(text: &[u8], out: &mut [u8]) -> usize
    ensures { Clipped out.old 0 (name_given text.now) result out.new }
{
    let mut i: usize = 0;
    let mut to: usize = 0;
    while i < text.len() {
        match byte_form(&text[i..]) {
            Some(byte) => {
                to = put_text(out, to, &[byte]);
                i += 4;
            }
            None => {
                to = put_text(out, to, &[character(text[i])]);
                i += 1;
            }
        }
    }
    to
}

// Whether a byte of a name is shown as itself.
fn is_shown(b: u8) -> bool
    ensures { result ≡ is_shown b }
{
    b != 0x3D && base_ascii::between(0x20, 0x5F, b)
}

// Stores a byte of a name as it is shown.
fn put_byte(out: &mut [u8], at: usize, b: u8) -> usize
    requires { at ≤ length out.old }
    ensures { Clipped out.old at (byte_shown b) result out.new }
{
    if is_shown(b) {
        return put_text(out, at, &[b]);
    }
    put_text(out, at, &[b'{', hex_digit(b / 16), hex_digit(b % 16), b'}'])
}

// Stores a name as it is shown from a place on, as much of it as fits, and answers the place behind it.
pub fn put_name(out: &mut [u8], at: usize, name: &[u8]) -> usize
    requires { at ≤ length out.old }
    ensures { Clipped out.old at (name_shown name.now) result out.new }
{
    let mut to = at;
    for b in name {
        to = put_byte(out, to, *b);
    }
    to
}

// The file that a word FILE=NAME or FILE names.
pub fn file_of(word: &[u8]) -> &[u8]
    ensures { result.now ≡ given_file word.now }
{
    say_names::before_last(word, b'=')
}

// The text of the name that it is to have on the disk.
pub fn text_of(word: &[u8]) -> &[u8]
    ensures { result.now ≡ given_text word.now }
{
    match search::last(word, Kind::Is(b'=')) {
        Some(n) => say_names::behind(word, n),
        None => say_names::plain_name(word),
    }
}
