// What decides the dialect of a text, and the words that crunching looks for in it.
ghost use Rattle.std.specs.Prelude.{◌≡◌, min, length};
ghost use Rattle.word_dialects.specs.declared.Dialect.TheVariants.{Auto};
ghost use Rattle.guess.specs.Guess.{word_sets};
ghost use Rattle.body_rules.specs.Lexicon.{lexicon};
ghost use Rattle.body.specs.Body.{crunched_body};
ghost use Rattle.editor_findings.specs.Deciding.{deciding_line, tsb_length};

use guess::resolve;
use text_lines::LineRule;
use word_dialects::Dialect;
use word_match::sets::Sets;
use word_tables::spellings;

// The first text line, from 1, that proves a text to be TSB.
pub fn deciding_line(text: &[u8], rule: LineRule) -> Option<usize>
    ensures { result ≡ deciding_line rule text.now }
{
    let words = spellings::stored_words();
    let mut at: usize = 0;
    let mut k: usize = 0;
    while at < text.len() {
        let line = text_lines::next_line(text, at, rule);
        let end = line.end;
        k += 1;
        if guess_evidence::line_evidence(&text[at..end], words) {
            return Some(k);
        }
        at = line.next;
    }
    None
}

// How many bytes the TSB word takes that a text begins with; 0 where there is none.
pub fn tsb_length(text: &[u8]) -> usize
    ensures { result ≡ tsb_length text.now }
{
    match word_match::match_tsb(text, spellings::stored_words()) {
        Some(found) => found.used,
        None => 0,
    }
}

// The words that are looked for when a text is crunched under Auto.
pub fn words_of(text: &[u8]) -> Sets
    ensures { result ≡ word_sets Auto text.now }
{
    resolve::word_sets(text, Dialect::Auto, spellings::stored_words())
}

// The length of a body once it is crunched, or 65,536 where it is that or more.
pub fn body_length(text: &[u8], sets: Sets) -> usize
    ensures { result ≡ min (length (crunched_body (lexicon sets) text.now)) 65536 }
{
    body::measure_body(text, spellings::stored_words(), sets)
}
