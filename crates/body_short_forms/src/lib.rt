// Short forms of V2 words: small letters and a capital behind them.
#![tactic(auto)]

ghost use Rattle.std.specs.Prelude.{◌≡◌};
ghost use Rattle.base_ascii.specs.Search.{front};
ghost use Rattle.word_tables.specs.Rom.{v2_words};
ghost use Rattle.word_tables.specs.Tsb.{tsb_words};
ghost use Rattle.body_short_forms.specs.Forms.{is_small, form_letters, short_form, tsb_there, form_word};

use word_match::sets::Sets;
use word_search::{Match, Test};
use word_tables::{WordList, Words};

// No V2 word has more letters.
const LONGEST: usize = 7;

// The V2 word that a short form at the front of the text stands for, if short forms are taken.
pub fn match_form(text: &[u8], words: Words, sets: Sets) -> Option<Match>
    ensures { result ≡ form_word sets tsb_words v2_words text.now }
{
    if !sets.forms || tsb_there(text, words, sets) {
        return None;
    }
    short_form(text, words)
}

// Whether a TSB word, live or demoted, stands there.
fn tsb_there(text: &[u8], words: Words, sets: Sets) -> bool
    ensures { result ≡ tsb_there sets tsb_words text.now }
{
    sets.tsb && word_match::match_tsb(text, words).is_some()
}

// The same, whatever words are in force. No more letters are looked at than the longest word has.
pub fn short_form(text: &[u8], words: Words) -> Option<Match>
    ensures { result ≡ short_form v2_words text.now }
{
    let to = text.len().min(LONGEST);
    let letters = form_letters(&text[..to]);
    let found = word_match::match_in(WordList::V2, Test::Shortens, letters, words)?;
    Some(Match {
        used: letters.len(),
        ..found
    })
}

// The small letters at the front of the text and the capital behind them; nothing where they do not stand so.
fn form_letters(text: &[u8]) -> &[u8]
    ensures { result.now ≡ form_letters text.now }
{
    let n = small_letters(text);
    match text.get(n) {
        Some(capital) if n > 0 && base_ascii::between(b'A', b'Z', *capital) => &text[..n + 1],
        _ => &text[..0],
    }
}

// How many small letters stand at the front of the text.
fn small_letters(text: &[u8]) -> usize
    ensures { result ≡ front is_small text.now }
{
    text.iter()
        .take_while(|b| base_ascii::between(b'a', b'z', **b))
        .count()
}
