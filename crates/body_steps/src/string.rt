// A step at a { in a string.
ghost use Rattle.std.specs.Prelude.{◌≡◌, ◌<◌, length, get_or, drop};
ghost use Rattle.body_steps.specs.BraceHelpers.{SpanOf, Spans, Reaches};
ghost use Rattle.body_rules.specs.Steps.{string_step};

use base_ascii::search;
use base_ascii::search::Kind;
use body_rules::{Mode, Move};
use escape_bytes::Escape;
use escapes::Tail;
use word_tables::Words;

// What the { in front of one } share: a place behind the first of them, the place of the }, or the text's end where none follows, and
// the tail of the bytes between.
#[derive(Clone, Copy)]
pub struct Span {
    pub from: usize,
    pub close: usize,
    pub tail: Tail,
}

// No } was looked for yet.
pub fn no_span(text: &[u8]) -> Span
    ensures { Spans text.now 0 result }
{
    Span {
        from: 0,
        close: 0,
        tail: escapes::tail_of(&text[..0]),
    }
}

// The span at a place, from that of an earlier place. It is found anew only at a { behind the known }, so no byte is read for two
// of them.
pub fn span_at(text: &[u8], at: usize, known: Span) -> Span
    requires { (at < length text.now) × Spans text.now at known }
    ensures { Reaches text.now at result }
{
    if text[at] != 0x7B || at < known.close {
        return known;
    }
    let from = at + 1;
    let close = from + search::before(&text[from..], Kind::Is(0x7D));
    Span {
        from,
        close,
        tail: escapes::tail_of(&text[from..close]),
    }
}

// A known escape between a { and the first } behind it; otherwise the { is a byte like others.
pub fn brace_step(text: &[u8], at: usize, span: Span, words: Words) -> Move
    requires { (at < length text.now) × (get_or text.now at 0 ≡ 0x7B) × SpanOf text.now at span }
    ensures { result ≡ string_step (drop at text.now) }
{
    let Span { from, close, tail } = span;
    if text.len() <= close {
        return body_rules::one(0x7B, Mode::String);
    }
    match escapes::escape_from(&text[from..close], at + 1 - from, tail, words) {
        Some(Escape { byte, count }) => Move {
            prefixed: false,
            byte,
            count,
            mode: Mode::String,
            used: close + 1 - at,
        },
        None => body_rules::one(0x7B, Mode::String),
    }
}
