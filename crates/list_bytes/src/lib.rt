// The text of one PETSCII byte.
#![tactic(auto)]

ghost use Rattle.std.specs.Prelude.{◌≡◌, [], ◌∷◌, ◌%◌, get_or};
ghost use Rattle.list_bytes.specs.ByteTexts.{hex_digits, byte_text, remark_text};
ghost use Rattle.list_bytes.specs.HeldHelpers.{held};

// A text of at most six bytes: the first len of them, and zeros behind.
#[derive(Clone, Copy)]
pub struct ByteText {
    pub bytes: [u8; 6],
    pub len: usize,
}

fn one(b: u8) -> ByteText
    ensures { result ≡ held (b ∷ []) }
{
    ByteText {
        bytes: [b, 0, 0, 0, 0, 0],
        len: 1,
    }
}

// The text of a byte that is listed as a character.
pub fn byte_to_string(b: u8) -> ByteText
    ensures { result ≡ held (byte_text b) }
{
    match b {
        0 => ByteText {
            bytes: *b"{null}",
            len: 6,
        },
        0x0D => one(b'\n'),
        0x20..=0x5F => one(b),
        0x60 => ByteText {
            bytes: [0xE2, 0x94, 0x80, 0, 0, 0],
            len: 3,
        },
        0xC1..=0xDA => one(b - 0x80),
        _ => {
            let high = hex_digit(b / 16);
            let low = hex_digit(b % 16);
            ByteText {
                bytes: [b'{', b'$', high, low, b'}', 0],
                len: 5,
            }
        }
    }
}

// The text of a byte of a remark: a small letter is itself.
pub fn remark_to_string(b: u8) -> ByteText
    ensures { result ≡ held (remark_text b) }
{
    match b {
        0x61..=0x7A => one(b),
        _ => byte_to_string(b),
    }
}

// The hex digit of a value below 16; any other value is taken as its last digit.
pub fn hex_digit(value: u8) -> u8
    ensures { result ≡ get_or hex_digits (value % 16) 0 }
{
    let digit = value % 16;
    if digit < 10 {
        return 0x30 + digit;
    }
    0x41 + (digit - 10)
}
