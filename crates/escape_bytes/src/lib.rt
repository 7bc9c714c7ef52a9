// What an escape gives: the definition of escapes with its laws, and what a key that is held gives with a byte.
#![tactic(auto)]

ghost use Rattle.std.specs.Prelude.{◌≡◌, ◌<◌, get_or};
ghost use Rattle.escape_bytes.specs.KeyCodes.{cbm_letters, ctrl_digits};
ghost use Rattle.escape_bytes.specs.Keys.{control_byte, key_with};

// What an escape stands for: a byte, so many times.
#[derive(Clone, Copy)]
pub struct Escape {
    pub byte: u8,
    pub count: u64,
}

// A key that is held while another is pressed.
#[derive(Clone, Copy)]
pub enum Key {
    Control,
    Commodore,
    Shift,
}

// The Commodore key with the letters A to Z. The codes follow the keyboard and not the alphabet.
const CBM_LETTER_BYTES: [u8; 26] =
    *b"\xB0\xBF\xBC\xAC\xB1\xBB\xA5\xB4\xA2\xB5\xA1\xB6\xA7\xAA\xB9\xAF\xAB\xB2\xAE\xA3\xB8\xBE\xB3\xBD\xB7\xAD";

// The control key with the digits 0 to 9.
const CTRL_DIGIT_BYTES: [u8; 10] = *b"\x92\x90\x05\x1C\x9F\x9C\x1E\x1F\x9E\x12";

// The code of a letter, by its place from 0.
fn cbm_letter_byte(place: usize) -> u8
    requires { place < 26 }
    ensures { result ≡ get_or cbm_letters place 0 }
{
    CBM_LETTER_BYTES[place]
}

// The code of a digit.
fn ctrl_digit_byte(digit: usize) -> u8
    requires { digit < 10 }
    ensures { result ≡ get_or ctrl_digits digit 0 }
{
    CTRL_DIGIT_BYTES[digit]
}

// What the control key gives with a byte.
fn control_byte(b: u8) -> u8
    ensures { result ≡ control_byte b }
{
    if base_ascii::is_digit(b) {
        return ctrl_digit_byte(usize::from(b - b'0'));
    }
    if base_ascii::is_letter(b) {
        return base_ascii::upper(b) - 64;
    }
    b % 32
}

// What a key gives with a byte: the Commodore key and the shift key give one with a letter alone.
pub fn key_with(key: Key, b: u8, count: u64) -> Option<Escape>
    ensures { result ≡ key_with key b count }
{
    match key {
        Key::Control => Some(Escape {
            byte: control_byte(b),
            count,
        }),
        Key::Commodore if base_ascii::is_letter(b) => Some(Escape {
            byte: cbm_letter_byte(usize::from(base_ascii::upper(b) - b'A')),
            count,
        }),
        Key::Shift if base_ascii::is_letter(b) => Some(Escape {
            byte: 0xC0 + (base_ascii::upper(b) - 64),
            count,
        }),
        _ => None,
    }
}
