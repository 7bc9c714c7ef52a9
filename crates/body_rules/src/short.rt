// Bytes that give one byte by themselves, whatever stands behind them.
ghost use Rattle.std.specs.Prelude.{◌≡◌, true};
ghost use Rattle.body_rules.specs.ShortHelpers.{is_short, plain_byte, short_byte, short_mode};
ghost use Rattle.body_rules.specs.Steps.{lettered as lettered_of};

use crate::Mode;

// Whether a byte gives one by itself: in plain mode all but letters and the first byte of pi, in a string all but {.
pub fn is_short(mode: Mode, b: u8) -> bool
    ensures { result ≡ is_short mode b }
{
    match mode {
        Mode::Plain => b != 0xCF && !base_ascii::is_letter(b),
        Mode::String => b != 0x7B,
        Mode::Remark | Mode::Data | Mode::DataQuote => true,
    }
}

// What it gives.
pub fn short_byte(mode: Mode, b: u8) -> u8
    requires { is_short mode b ≡ true }
    ensures { result ≡ short_byte mode b }
{
    match mode {
        Mode::Plain => plain_byte(b),
        Mode::String => lettered(b),
        Mode::Remark => b,
        Mode::Data | Mode::DataQuote => base_ascii::upper(b),
    }
}

// An operator gives its token, ? that of PRINT.
fn plain_byte(b: u8) -> u8
    requires { is_short Mode.Plain b ≡ true }
    ensures { result ≡ plain_byte b }
{
    match b {
        b'+' => 0xAA,
        b'-' => 0xAB,
        b'*' => 0xAC,
        b'/' => 0xAD,
        b'^' => 0xAE,
        b'>' => 0xB1,
        b'=' => 0xB2,
        b'<' => 0xB3,
        b'?' => 0x99,
        _ => b,
    }
}

// a to z become 41 to 5A, A to Z become C1 to DA.
fn lettered(b: u8) -> u8
    ensures { result ≡ lettered_of b }
{
    match b {
        b'a'..=b'z' => b - 32,
        b'A'..=b'Z' => b + 0x80,
        _ => b,
    }
}

// The mode behind it.
pub fn mode_behind(mode: Mode, b: u8) -> Mode
    ensures { result ≡ short_mode mode b }
{
    match (mode, b) {
        (Mode::Plain, b'"') => Mode::String,
        (Mode::String, b'"') => Mode::Plain,
        (Mode::Data, b'"') => Mode::DataQuote,
        (Mode::Data, b':') => Mode::Plain,
        (Mode::DataQuote, b'"') => Mode::Data,
        _ => mode,
    }
}
