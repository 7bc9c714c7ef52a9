// One step of crunching a body, at a byte that does not give one by itself: a word, pi, a letter, or an escape.
ghost use Rattle.std.specs.Prelude.{◌≡◌, true, ◌<◌, length, get_or, drop};
ghost use Rattle.body_steps.specs.BraceHelpers.{Reaches};
ghost use Rattle.body_rules.specs.Lexicon.{lexicon};
ghost use Rattle.body_rules.specs.ShortHelpers.{is_long, long_step};

use crate::string::Span;
use crate::{plain, string};
use body_rules::Move;
use word_match::sets::Sets;
use word_tables::Words;

// A step at a place of a text. At a { the span is that of its }.
pub fn step(text: &[u8], at: usize, span: Span, words: Words, sets: Sets) -> Move
    requires { (at < length text.now) × (is_long (get_or text.now at 0) ≡ true) × Reaches text.now at span }
    ensures { result ≡ long_step (lexicon sets) (drop at text.now) }
{
    match text[at] {
        0x7B => string::brace_step(text, at, span, words),
        0xCF => plain::from_pi(&text[at..]),
        _ => plain::letter_step(&text[at..], words, sets),
    }
}
