// What a text is to be crunched with, and op 03: the dialect that a text resolves to.
use crate::dialects;
use crunch_rules::Options;
use guess::resolve;
use word_dialects::Dialect;

// The load address and the dialect's byte that a payload begins with, without options.
pub fn plain(payload: &[u8]) -> Option<Options> {
    let [low, high, dialect, ..] = payload else {
        return None;
    };
    asked_for(u16::from_le_bytes([*low, *high]), *dialect, 0)
}

// The same, and the byte of options.
pub fn with_options(payload: &[u8]) -> Option<Options> {
    let [low, high, dialect, bits, ..] = payload else {
        return None;
    };
    asked_for(u16::from_le_bytes([*low, *high]), *dialect, *bits)
}

// Bit 0 of the options: the machine profile; bit 1: short forms. No other bit is known.
fn asked_for(load: u16, dialect: u8, bits: u8) -> Option<Options> {
    if bits > 3 {
        return None;
    }
    Some(Options {
        load,
        dialect: word_dialects::dialect_by_number(dialect).ok()?,
        profile: bits % 2 == 1,
        forms: bits / 2 == 1,
    })
}

pub fn resolved_dialect(payload: &[u8]) -> bool {
    let [byte, text @ ..] = payload else {
        return judge_frames::reject();
    };
    match word_dialects::dialect_by_number(*byte) {
        Ok(dialect) => send_resolved(text, dialect),
        Err(_) => judge_frames::reject(),
    }
}

fn send_resolved(text: &[u8], dialect: Dialect) -> bool {
    match resolve::resolved_dialect(text, dialect) {
        Ok(dialect) => judge_frames::tell(dialects::byte_of(dialect)),
        Err(refusal) => judge_frames::refuse(refusal),
    }
}
