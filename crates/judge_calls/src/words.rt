// Ops 04 and 05: calls on a word, which is the whole payload.
use crate::dialects;

pub fn dialect_by_name(word: &[u8]) -> bool {
    match word_dialects::dialect_by_name(word) {
        Ok(dialect) => judge_frames::tell(dialects::byte_of(dialect)),
        Err(refusal) => judge_frames::refuse(refusal),
    }
}

pub fn is_tsb_word(word: &[u8]) -> bool {
    judge_frames::tell(u8::from(word_match::tsb::is_tsb_keyword_name(word)))
}
