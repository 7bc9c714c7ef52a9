// Dialects and their names.
#![tactic(auto)]

ghost use Rattle.std.specs.Prelude.{◌≡◌};
ghost use Rattle.word_dialects.specs.Dialects.{by_number, named, is_basic35, default_load};
ghost use Rattle.base_refusals.specs.Answer.{answered};

use base_refusals::Refusal;

#[derive(Clone, Copy, PartialEq, Eq)]
pub enum Dialect {
    // Decide by the program.
    Auto,
    // TSB words are variables.
    BasicV2,
    // TSB words are keywords everywhere.
    Tsb,
    // The BASIC of the Plus/4; TSB words are variables.
    Basic35,
}

// Each name of a dialect.
const NAMES: [(&[u8], Dialect); 9] = [
    (b"auto", Dialect::Auto),
    (b"basic2", Dialect::BasicV2),
    (b"basicv2", Dialect::BasicV2),
    (b"v2", Dialect::BasicV2),
    (b"basic-v2", Dialect::BasicV2),
    (b"tsb", Dialect::Tsb),
    (b"simons", Dialect::Tsb),
    (b"ext", Dialect::Tsb),
    (b"basic35", Dialect::Basic35),
];

// The dialect of a number, as callers in other languages give it.
pub fn dialect_by_number(number: u8) -> Result<Dialect, Refusal>
    ensures { answered result ≡ by_number number }
{
    match number {
        0 => Ok(Dialect::Auto),
        1 => Ok(Dialect::BasicV2),
        2 => Ok(Dialect::Tsb),
        3 => Ok(Dialect::Basic35),
        _ => Err(Refusal::UnknownDialect),
    }
}

// The dialect that a word names: trimmed, without regard to case.
pub fn dialect_by_name(word: &[u8]) -> Result<Dialect, Refusal>
    ensures { answered result ≡ named word.now }
{
    if word.len() > 64 || !base_ascii::is_ascii(word) {
        return Err(Refusal::UnknownDialect);
    }
    let name = base_ascii::trim(word);
    for (known, dialect) in &NAMES {
        if word_search::alike(known, name) {
            return Ok(*dialect);
        }
    }
    Err(Refusal::UnknownDialect)
}

pub fn is_basic35(dialect: Dialect) -> bool
    ensures { result ≡ is_basic35 dialect }
{
    dialect == Dialect::Basic35
}

// The address that programs of a dialect are loaded at where no other is asked for.
pub fn default_load(dialect: Dialect) -> u16
    ensures { result ≡ default_load dialect }
{
    if is_basic35(dialect) { 0x1001 } else { 0x0801 }
}
