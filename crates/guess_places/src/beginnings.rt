// What a text begins with: a TSB word, REM, DATA.
ghost use Rattle.std.specs.Prelude.{◌≡◌, ◌<◌, length};
ghost use Rattle.word_search.specs.Compare.{begins};
ghost use Rattle.word_search.specs.Find.{word_in};
ghost use Rattle.word_search.specs.Spelling.{bytes_of};
ghost use Rattle.word_tables.specs.Tsb.{tsb_words};
ghost use Rattle.guess_places.specs.PlaceHelpers.{may_second};

use word_search::{Match, Test};
use word_tables::{WordList, Words};

// A bit for each byte from 20 on that is the second one of a TSB word: !ACEFGHILMNOPRSTUX.
const SECONDS: u64 = 0x13DF3EA00000002;

// Whether a byte may be the second one of a TSB word.
fn may_be_second(b: u8) -> bool
    ensures { result ≡ may_second b }
{
    let c = base_ascii::upper(b);
    c >= 0x20 && c <= 0x5F && (SECONDS >> (c - 0x20)) % 2 == 1
}

// The TSB word that a text begins with. Each begins with a letter and has a second byte, so that most places are not looked up.
pub fn tsb_word(text: &[u8], words: Words) -> Option<Match>
    ensures { result ≡ word_in tsb_words text.now }
{
    if text.len() < 2 || !base_ascii::is_letter(text[0]) || !may_be_second(text[1]) {
        return None;
    }
    word_match::match_in(WordList::Tsb, Test::Begins, text, words)
}

// Whether a text begins with REM. Its first byte is asked for first: most places have another.
pub fn begins_rem(text: &[u8]) -> bool
    requires { 0 < length text.now }
    ensures { result ≡ begins (bytes_of "REM") text.now }
{
    base_ascii::upper(text[0]) == b'R' && word_search::begins(b"REM", text)
}

// The same of DATA.
pub fn begins_data(text: &[u8]) -> bool
    requires { 0 < length text.now }
    ensures { result ≡ begins (bytes_of "DATA") text.now }
{
    base_ascii::upper(text[0]) == b'D' && word_search::begins(b"DATA", text)
}
