// The dialect of a text, and the TSB words that are live in it.
ghost use Rattle.std.specs.Prelude.{◌≡◌, ◌≤◌, length};
ghost use Rattle.text_lines.specs.TextLines.{text_lines};
ghost use Rattle.guess.specs.Guess.{evidence as evidence_of, all_names, guessed_dialect, resolved, word_sets};
ghost use Rattle.base_refusals.specs.Answer.{answered};

use base_refusals::Refusal;
use text_lines::LineRule;
use word_dialects::Dialect;
use word_match::sets::Sets;
use word_tables::{Words, spellings};

// Whether a line of the text proves that it is TSB.
pub fn text_evidence(text: &[u8], rule: LineRule, words: Words) -> bool
    ensures { result ≡ evidence_of rule text.now }
{
    let mut at: usize = 0;
    while at < text.len() {
        let line = text_lines::next_line(text, at, rule);
        // The blanks in front of a line prove nothing.
        let begin = line.begin;
        let end = line.end;
        if guess_evidence::line_evidence(&text[begin..end], words) {
            return true;
        }
        at = line.next;
    }
    false
}

// Adds the words that the text uses as variables to those that were found.
fn text_names(text: &[u8], rule: LineRule, words: Words, found: &mut [bool])
    requires { (123 ≤ length found.old) }
    ensures { found.new ≡ all_names (text_lines rule text.now) found.old }
{
    let mut at: usize = 0;
    while at < text.len() {
        let line = text_lines::next_line(text, at, rule);
        let end = line.end;
        guess_variables::line_names(&text[at..end], words, found);
        at = line.next;
    }
}

// The dialect that Auto is for a text as given; the others are themselves.
fn guessed(text: &[u8], dialect: Dialect) -> Dialect
    ensures { result ≡ guessed_dialect dialect text.now }
{
    match dialect {
        Dialect::Auto => {
            if text_evidence(text, LineRule::AsGiven, spellings::stored_words()) {
                Dialect::Tsb
            } else {
                Dialect::BasicV2
            }
        }
        _ => dialect,
    }
}

// The dialect by which a text is taken.
pub fn resolved_dialect(text: &[u8], dialect: Dialect) -> Result<Dialect, Refusal>
    ensures { answered result ≡ resolved dialect text.now }
{
    text_domain::check_text(text)?;
    Ok(guessed(text, dialect))
}

// The TSB words that are live when a text is crunched, those that are demoted, and whether the words of BASIC 3.5 are looked for. The guess
// knows no short forms.
pub fn word_sets(text: &[u8], dialect: Dialect, words: Words) -> Sets
    ensures { result ≡ word_sets dialect text.now }
{
    let quiet = Sets {
        tsb: false,
        demoted: [false; 123],
        basic35: false,
        forms: false,
    };
    match dialect {
        Dialect::BasicV2 => quiet,
        Dialect::Tsb => Sets { tsb: true, ..quiet },
        Dialect::Basic35 => Sets {
            basic35: true,
            ..quiet
        },
        Dialect::Auto => {
            if !text_evidence(text, LineRule::AfterCr, words) {
                return quiet;
            }
            let mut demoted = quiet.demoted;
            text_names(text, LineRule::AfterCr, words, &mut demoted);
            Sets {
                tsb: true,
                demoted,
                ..quiet
            }
        }
    }
}
