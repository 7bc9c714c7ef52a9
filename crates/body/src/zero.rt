// Whether a crunched body holds a zero, at which the machine would end its line.
ghost use Rattle.std.specs.Prelude.{◌≡◌};
ghost use Rattle.body.specs.Body.{written, crunched_body};
ghost use Rattle.body_rules.specs.Lexicon.{lexicon};
ghost use Rattle.body.specs.Zero.{holds_zero};

use body_rules::{Mode, Move, short};
use body_steps::{step, string};
use word_match::sets::Sets;
use word_tables::Words;

// Looks to the body's end, however long it is; a byte that an escape repeats is looked at once. A short byte gives a zero just where it is one.
// A loop of its own beside the measuring one, which counts and stops at 65,536, and which plain crunching runs without asking for zeros.
pub fn holds_zero(text: &[u8], words: Words, sets: Sets) -> bool
    ensures { result ≡ holds_zero (crunched_body (lexicon sets) text.now) }
{
    let mut span = string::no_span(text);
    let mut at: usize = 0;
    let mut mode = Mode::Plain;
    while at < text.len() {
        let b = text[at];
        if short::is_short(mode, b) {
            if b == 0 {
                return true;
            }
            mode = short::mode_behind(mode, b);
            at += 1;
        } else {
            span = string::span_at(text, at, span);
            let m = step::step(text, at, span, words, sets);
            if writes_zero(m) {
                return true;
            }
            at += m.used;
            mode = m.mode;
        }
    }
    false
}

// Whether a step writes a zero: the 64 in front of a token is none.
fn writes_zero(m: Move) -> bool
    ensures { result ≡ holds_zero (written m) }
{
    m.count > 0 && m.byte == 0
}
