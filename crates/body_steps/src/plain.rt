// A step in plain mode at a letter or at the first byte of pi. The functions are lent the text from the step's place on.
ghost use Rattle.std.specs.Prelude.{◌≡◌, true, false, ◌<◌, length};
ghost use Rattle.base_ascii.specs.Bytes.{is_letter};
ghost use Rattle.word_tables.specs.Tsb.{tsb_words};
ghost use Rattle.word_match.specs.Sets.{live_word};
ghost use Rattle.body_rules.specs.Lexicon.{lexicon};
ghost use Rattle.body_rules.specs.Steps.{first, other_step, form_step, plain_step};

use body_rules::{Mode, Move};
use word_match::sets::Sets;
use word_search::Match;
use word_tables::Words;

// A letter: a TSB word, a V2 word or one of BASIC 3.5, a short form of a V2 word, or the letter.
pub fn letter_step(rest: &[u8], words: Words, sets: Sets) -> Move
    requires { (0 < length rest.now) × (is_letter (first rest.now) ≡ true) }
    ensures { result ≡ plain_step (lexicon sets) rest.now }
{
    if let Some(found) = live_word(rest, words, sets) {
        return body_rules::token(true, found.token, Mode::Plain, found.used);
    }
    if let Some(found) = word_match::match_plain(rest, words, sets) {
        return body_rules::token(
            false,
            found.token,
            body_rules::opened(found.token),
            found.used,
        );
    }
    form_step(rest, words, sets)
}

// The live TSB word there. Looking a word up copies the sets, so nothing is looked up where no TSB word is live.
fn live_word(rest: &[u8], words: Words, sets: Sets) -> Option<Match>
    ensures { result ≡ live_word sets tsb_words rest.now }
{
    if !sets.tsb {
        return None;
    }
    word_match::match_live(rest, words, sets)
}

// Where no whole word stands: a short form, or the letter.
fn form_step(rest: &[u8], words: Words, sets: Sets) -> Move
    requires { (0 < length rest.now) × (is_letter (first rest.now) ≡ true) }
    ensures { result ≡ form_step (lexicon sets) rest.now }
{
    if sets.forms
        && let Some(found) = body_short_forms::match_form(rest, words, sets)
    {
        return body_rules::token(
            false,
            found.token,
            body_rules::opened(found.token),
            found.used,
        );
    }
    body_rules::one(base_ascii::upper(rest[0]), Mode::Plain)
}

// CF with 80 behind it is pi.
pub fn from_pi(rest: &[u8]) -> Move
    requires { (0 < length rest.now) × (first rest.now ≡ 0xCF) }
    ensures { result ≡ other_step rest.now }
{
    if rest.len() > 1 && rest[1] == 0x80 {
        return body_rules::token(false, 0xFF, Mode::Plain, 2);
    }
    body_rules::one(0xCF, Mode::Plain)
}
