// Dialects as the bytes that stand for them, and op 13: the default load address.
use judge_frames::Answer;
use word_dialects::Dialect;

pub fn byte_of(dialect: Dialect) -> u8 {
    match dialect {
        Dialect::Auto => 0,
        Dialect::BasicV2 => 1,
        Dialect::Tsb => 2,
        Dialect::Basic35 => 3,
    }
}

pub fn default_load(payload: &[u8]) -> bool {
    let [byte, ..] = payload else {
        return judge_frames::reject();
    };
    match word_dialects::dialect_by_number(*byte) {
        Ok(dialect) => send_load(word_dialects::default_load(dialect)),
        Err(_) => judge_frames::reject(),
    }
}

fn send_load(load: u16) -> bool {
    Answer::done().number(usize::from(load)).send()
}
