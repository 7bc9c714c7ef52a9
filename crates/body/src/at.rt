// One step of crunching a body, at any place: for whoever walks over a body without crunching it.
ghost use Rattle.std.specs.Prelude.{◌≡◌, ◌<◌, length, drop};
ghost use Rattle.body_steps.specs.BraceHelpers.{Spans};
ghost use Rattle.body_rules.specs.Lexicon.{lexicon};
ghost use Rattle.body_rules.specs.Steps.{crunch_step};

use body_rules::{Mode, Move, short};
use body_steps::string::Span;
use body_steps::{step, string};
use word_match::sets::Sets;
use word_tables::Words;

// Where a walk over a body stands: a place, the mode there, and the span that is known there.
#[derive(Clone, Copy)]
pub struct Stand {
    pub at: usize,
    pub mode: Mode,
    pub span: Span,
}

// A step, and the span that is known behind it.
#[derive(Clone, Copy)]
pub struct Stepped {
    pub step: Move,
    pub span: Span,
}

// A place and a mode where no span is known.
pub fn stand_at(text: &[u8], at: usize, mode: Mode) -> Stand
    ensures { (result.at ≡ at) × (result.mode ≡ mode) × Spans text.now at result.span }
{
    Stand {
        at,
        mode,
        span: string::no_span(text),
    }
}

// The step where a walk stands. Over a whole body no byte is looked at for more than one span.
pub fn step_at(text: &[u8], from: Stand, words: Words, sets: Sets) -> Stepped
    requires { (from.at < length text.now) × Spans text.now from.at from.span }
    ensures { (result.step ≡ crunch_step (lexicon sets) from.mode (drop from.at text.now)) × Spans text.now from.at result.span }
{
    let Stand {
        at,
        mode,
        span: known,
    } = from;
    let b = text[at];
    if short::is_short(mode, b) {
        let next = short::mode_behind(mode, b);
        return Stepped {
            step: body_rules::one(short::short_byte(mode, b), next),
            span: known,
        };
    }
    let span = string::span_at(text, at, known);
    Stepped {
        step: step::step(text, at, span, words, sets),
        span,
    }
}
