// Words of the lists in a text: the first of a list that the text begins with, and which of them count. The two tables of words are lent.
#![tactic(auto)]

pub mod sets;
pub mod tsb;

ghost use Rattle.std.specs.Prelude.{◌≡◌, ◌+◌, ◌<◌, length, get_or, Some};
ghost use Rattle.word_search.specs.Find.{match_in, word_in, name_in};
ghost use Rattle.word_tables.specs.Rom.{v2_words, operators};
ghost use Rattle.word_tables.specs.Tsb.{tsb_words};
ghost use Rattle.word_tables.specs.Escapes.{escape_names};
ghost use Rattle.word_tables.specs.Basic35.{basic35_words};
ghost use Rattle.word_match.specs.Sets.{live_word, plain_word};
ghost use Rattle.word_tables.specs.WordsHelpers.{Held, words_of, capitals, initial, groups_of, group_at, word_found};

use sets::Sets;
use word_search::{Match, Section, Test};
use word_tables::{WordList, Words, spellings};

// Where the groups of a list begin in the index.
fn groups_of(list: WordList) -> usize
    ensures { result ≡ groups_of list }
{
    spellings::GROUPS + 64 * list as usize
}

// The words of a list that begin as the text does.
fn group_of(list: WordList, text: &[u8], words: Words) -> Section
    ensures { result ≡ group_at words.entry.index.now list (initial text.now) }
{
    let none = Section { from: 0, to: 0 };
    let Some(first) = text.first() else {
        return none;
    };
    let b = base_ascii::upper(*first);
    if !base_ascii::between(32, 95, b) {
        return none;
    }
    section_at(words.index, groups_of(list) + usize::from(b - 32))
}

// The section from one number of the index up to the next.
fn section_at(index: &[u16], at: usize) -> Section
    requires { at + 1 < length index.now }
    ensures { result ≡ record { from = get_or index.now at 0; to = get_or index.now (at + 1) 0 } }
{
    Section {
        from: usize::from(index[at]),
        to: usize::from(index[at + 1]),
    }
}

// The place of stored word i in its list.
fn place_of(index: &[u16], i: usize) -> usize
    requires { 362 + i < length index.now }
    ensures { result ≡ get_or index.now (362 + i) 0 }
{
    usize::from(index[spellings::PLACES + i])
}

// Stored word i, as the search of its list answers it.
fn word_found(words: Words, i: usize) -> Match
    requires { Held words.bytes.now words.index.now i }
    ensures { Some result ≡ word_found words.entry.bytes.now words.entry.index.now i }
{
    Match {
        index: place_of(words.index, i),
        used: word_search::word_at(words.bytes, words.index, i).len(),
        token: words.bytes[spellings::TOKENS + i],
    }
}

// The first word of a list that passes the test; its words are stored in capitals.
pub fn match_in(list: WordList, test: Test, text: &[u8], words: Words) -> Option<Match>
    ensures { result ≡ match_in test (capitals (words_of list)) text.now }
{
    let group = group_of(list, text, words);
    let i = word_search::first_passing(test, text, words.bytes, words.index, group, 1);
    if i < group.to {
        Some(word_found(words, i))
    } else {
        None
    }
}

// The V2 word that the text begins with.
pub fn match_v2(text: &[u8], words: Words) -> Option<Match>
    ensures { result ≡ word_in v2_words text.now }
{
    match_in(WordList::V2, Test::Begins, text, words)
}

// The word of BASIC 3.5 that the text begins with.
fn match_basic35(text: &[u8], words: Words) -> Option<Match>
    ensures { result ≡ word_in basic35_words text.now }
{
    match_in(WordList::Basic35, Test::Begins, text, words)
}

// The word that the text begins with: a V2 word, or under BASIC 3.5 one of its own, which stand behind the V2 words in the list of both.
// No V2 word begins one of these, so the first is the longest.
pub fn match_plain(text: &[u8], words: Words, sets: Sets) -> Option<Match>
    ensures { result ≡ plain_word sets v2_words basic35_words text.now }
{
    let v2 = match_v2(text, words);
    if v2.is_some() || !sets.basic35 {
        return v2;
    }
    let own = match_basic35(text, words)?;
    Some(Match {
        index: spellings::V2_WORDS + own.index,
        ..own
    })
}

// The operator that the text begins with.
pub fn match_operator(text: &[u8], words: Words) -> Option<Match>
    ensures { result ≡ word_in operators text.now }
{
    match_in(WordList::Operators, Test::Begins, text, words)
}

// The TSB word that the text begins with.
pub fn match_tsb(text: &[u8], words: Words) -> Option<Match>
    ensures { result ≡ word_in tsb_words text.now }
{
    match_in(WordList::Tsb, Test::Begins, text, words)
}

// The live TSB word that the text begins with, unless it also begins with a demoted one.
pub fn match_live(text: &[u8], words: Words, sets: Sets) -> Option<Match>
    ensures { result ≡ live_word sets tsb_words text.now }
{
    if !sets.tsb {
        return None;
    }
    let group = group_of(WordList::Tsb, text, words);
    let to = group.to;
    let first = word_search::first_passing(Test::Begins, text, words.bytes, words.index, group, 1);
    let mut i = first;
    while i < to {
        let place = place_of(words.index, i);
        if sets.demoted[place] {
            return None;
        }
        i = word_search::first_passing(
            Test::Begins,
            text,
            words.bytes,
            words.index,
            Section { from: i + 1, to },
            1,
        );
    }
    if first < to {
        Some(word_found(words, first))
    } else {
        None
    }
}

// The escape name that the text is.
pub fn match_escape(name: &[u8], words: Words) -> Option<Match>
    ensures { result ≡ name_in escape_names name.now }
{
    match_in(WordList::Escapes, Test::Alike, name, words)
}
