// The rules of a step of crunching: the modes, a step's answer, and the bytes that give one byte by themselves. The definition of a step in
// each mode, plain, string, remark and DATA, is specs/Steps.antt; its laws stand in proofs/.
#![tactic(auto)]

ghost use Rattle.std.specs.Prelude.{◌≡◌};
ghost use Rattle.body_rules.specs.Steps.{one as one_byte, token as token_of, opened as opened_by};

pub mod short;

#[derive(Clone, Copy)]
pub enum Mode {
    Plain,
    String,
    Remark,
    Data,
    // Between the quotes of a part of Data.
    DataQuote,
}

// What a step writes, 64 if prefixed and then count copies of byte; the mode behind it; and how many bytes of the text it takes.
#[derive(Clone, Copy)]
pub struct Move {
    pub prefixed: bool,
    pub byte: u8,
    pub count: u64,
    pub mode: Mode,
    pub used: usize,
}

// A byte of the text gives a byte.
pub fn one(byte: u8, mode: Mode) -> Move
    ensures { result ≡ one_byte byte mode }
{
    Move {
        prefixed: false,
        byte,
        count: 1,
        mode,
        used: 1,
    }
}

// A word gives its token.
pub fn token(prefixed: bool, byte: u8, mode: Mode, used: usize) -> Move
    ensures { result ≡ token_of prefixed byte mode used }
{
    Move {
        prefixed,
        byte,
        count: 1,
        mode,
        used,
    }
}

// The mode behind a word.
pub fn opened(token: u8) -> Mode
    ensures { result ≡ opened_by token }
{
    match token {
        0x8F => Mode::Remark,
        0x83 => Mode::Data,
        _ => Mode::Plain,
    }
}
