// What the words ask for that a program was given behind its three names. Each is decided by a call that is proved elsewhere. Where a word asks for
// nothing, there is nothing: standard error says so, the status is told, and the program has ended.
use crate::line::Line;
use crate::{names, output, saying};
use desk_calls::words;
use desk_status::Status;
use text_numbers::Numbering;
use word_dialects::Dialect;

// Whether there is a word at a place.
fn is_given(rt: &HostRuntime, argument: usize) -> bool {
    words::is_there(rt, argument)
}

// Whether the word of a flag is there and is not empty.
pub fn is_set(rt: &HostRuntime, argument: usize) -> bool {
    let mut word = io::buffer();
    !names::name(rt, argument, &mut word).is_empty()
}

// The dialect that a word names; Auto where there is no word.
pub fn dialect(rt: &HostRuntime, argument: usize) -> Option<Dialect> {
    if !is_given(rt, argument) {
        return Some(Dialect::Auto);
    }
    let mut word = io::buffer();
    let name = names::name(rt, argument, &mut word);
    word_dialects::dialect_by_name(name)
        .inspect_err(|refusal| output::refuse_for(rt, name, *refusal))
        .ok()
}

// Ends a program that was given a word in the place of a number.
fn misuse(rt: &HostRuntime, word: &[u8]) {
    let mut line = Line::<4352>::new();
    line.put(b"moldthatch: ");
    line.put(word);
    line.put(b": no number from 0 to 65535");
    saying::tell(rt, line.bytes());
    desk_status::tell(Status::Misused);
}

// The number that a word is: one that a text line could have, with nothing behind it.
pub fn number(rt: &HostRuntime, argument: usize) -> Option<u16> {
    let mut buf = io::buffer();
    let word = names::name(rt, argument, &mut buf);
    match text_numbers::number_line(word) {
        Numbering::Numbered {
            number,
            body_from,
            body_to,
        } if body_from >= body_to => Some(number),
        _ => {
            misuse(rt, word);
            None
        }
    }
}

// The load address that a word is, or the dialect's own where there is no word.
pub fn load(rt: &HostRuntime, argument: usize, dialect: Dialect) -> Option<u16> {
    if is_given(rt, argument) {
        number(rt, argument)
    } else {
        Some(word_dialects::default_load(dialect))
    }
}
