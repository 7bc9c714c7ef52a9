// Words compared with texts, and a list of words as it is stored: one run of bytes, with a start for each word and one behind the last.
#![tactic(auto)]

ghost use Rattle.std.specs.Prelude.{◌≡◌, ◌-◌};
ghost use Rattle.word_search.specs.Compare.{begins as begins_of, alike as alike_of, same as same_of, shortens as shortens_of, passes as passes_of};
ghost use Rattle.word_search.specs.RunHelpers.{Lies, Ready, Stored, word_of, passes_at, first_from};

// A word that stands in a text: its place in its list, how many bytes of the text it takes, and its token.
#[derive(Clone, Copy)]
pub struct Match {
    pub index: usize,
    pub used: usize,
    pub token: u8,
}

// The words of a run from a place up to another.
#[derive(Clone, Copy)]
pub struct Section {
    pub from: usize,
    pub to: usize,
}

// How a word is compared with a text.
#[derive(Clone, Copy)]
pub enum Test {
    // The text begins with the word, without regard to case.
    Begins,
    // The text is the word, without regard to case.
    Alike,
    // The text is the word, case and all.
    Same,
    // The text is a beginning of the word, one byte or more, and the word is longer; without regard to case.
    Shortens,
}

// Whether the text begins with the word, without regard to case.
pub fn begins(word: &[u8], text: &[u8]) -> bool
    ensures { result ≡ begins_of word.now text.now }
{
    word.len() <= text.len()
        && word
            .iter()
            .zip(text)
            .all(|(a, b)| base_ascii::upper(*a) == base_ascii::upper(*b))
}

// Whether the text is the word, without regard to case.
pub fn alike(word: &[u8], text: &[u8]) -> bool
    ensures { result ≡ alike_of word.now text.now }
{
    word.len() == text.len() && begins(word, text)
}

// Whether the text is the word, case and all.
pub fn same(word: &[u8], text: &[u8]) -> bool
    ensures { result ≡ same_of word.now text.now }
{
    word == text
}

// Whether the text is a beginning of the word, one byte or more, and the word is longer.
fn shortens(word: &[u8], text: &[u8]) -> bool
    ensures { result ≡ shortens_of word.now text.now }
{
    !text.is_empty() && text.len() < word.len() && begins(text, word)
}

// Whether the text begins with a word that is stored in capitals, where so many bytes of the two are known to agree. The lengths are not
// compared first: most words differ in the next byte.
fn goes_on(word: &[u8], text: &[u8], known: usize) -> bool
    requires { Ready word.now text.now known }
    ensures { result ≡ begins_of word.now text.now }
{
    for i in known..word.len() {
        if i >= text.len() || word[i] != base_ascii::upper(text[i]) {
            return false;
        }
    }
    true
}

// Whether such a word passes a test of the text.
fn passes(test: Test, word: &[u8], text: &[u8], known: usize) -> bool
    requires { Ready word.now text.now known }
    ensures { result ≡ passes_of test word.now text.now }
{
    match test {
        Test::Begins => goes_on(word, text, known),
        Test::Alike => word.len() == text.len() && goes_on(word, text, known),
        Test::Same => same(word, text),
        Test::Shortens => shortens(word, text),
    }
}

// Word k of a run.
pub fn word_at<'a>(bytes: &'a [u8], starts: &[u16], k: usize) -> &'a [u8]
    requires { Lies bytes.now starts.now k }
    ensures { result.now ≡ word_of bytes.now starts.now k }
{
    let from = usize::from(starts[k]);
    let to = usize::from(starts[k + 1]);
    &bytes[from..to]
}

// The first word of a section that passes the test; the section's end where none does.
pub fn first_passing(
    test: Test,
    text: &[u8],
    bytes: &[u8],
    starts: &[u16],
    section: Section,
    known: usize,
) -> usize
    requires { Stored text.now bytes.now starts.now section known }
    ensures { result ≡ first_from (passes_at test text.now bytes.now starts.now) section.from (section.to - section.from) }
{
    for i in section.from..section.to {
        if passes(test, word_at(bytes, starts, i), text, known) {
            return i;
        }
    }
    section.to
}
