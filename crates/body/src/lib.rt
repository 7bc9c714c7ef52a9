// One body, crunched: its length, and its bytes written into a lent buffer from that buffer's first byte on.
#![tactic(auto)]

ghost use Rattle.std.specs.Prelude.{◌≡◌, ◌+◌, ◌≤◌, ◌<◌, min, length, replicate};
ghost use Rattle.base_lent.specs.Stores.{Room, Put};
ghost use Rattle.body.specs.Body.{prefix_of, written, crunched_body};
ghost use Rattle.body_rules.specs.Lexicon.{lexicon};
ghost use Rattle.body.specs.BoundHelpers.{may_repeat};

use base_ascii::search;
use base_ascii::search::Kind;
use body_rules::{Mode, Move, short};
use body_steps::{step, string};
use word_match::sets::Sets;
use word_tables::Words;

pub mod at;
pub mod zero;

// The length of a body, or 65,536 where it is that or more.
pub fn measure_body(text: &[u8], words: Words, sets: Sets) -> usize
    ensures { result ≡ min (length (crunched_body (lexicon sets) text.now)) 65536 }
{
    let mut span = string::no_span(text);
    let mut at: usize = 0;
    let mut mode = Mode::Plain;
    let mut n: usize = 0;
    while at < text.len() {
        let b = text[at];
        if short::is_short(mode, b) {
            mode = short::mode_behind(mode, b);
            at += 1;
            n += 1;
            if n == 65536 {
                return n;
            }
        } else {
            span = string::span_at(text, at, span);
            let m = step::step(text, at, span, words, sets);
            n = longer(n, m);
            if n == 65536 {
                return n;
            }
            at += m.used;
            mode = m.mode;
        }
    }
    n
}

// A length that the body does not pass, or 65,536: that of its text, where no } stands behind a *.
#[tactic(auto, using(crate::proofs::Bound::body_bound))]
pub fn bound_body(text: &[u8], words: Words, sets: Sets) -> usize
    ensures { (min (length (crunched_body (lexicon sets) text.now)) 65536 ≤ result) × (result ≤ 65536) }
{
    if may_repeat(text) {
        return measure_body(text, words, sets);
    }
    text.len().min(65536)
}

// Whether a } stands behind a *: without that no escape has a count.
fn may_repeat(text: &[u8]) -> bool
    ensures { result ≡ may_repeat text.now }
{
    let star = search::before(text, Kind::Is(b'*'));
    let rest = &text[star..];
    search::before(rest, Kind::Is(0x7D)) < rest.len()
}

// A length with what a step writes behind it, up to 65,536.
fn longer(n: usize, m: Move) -> usize
    requires { n < 65536 }
    ensures { result ≡ min (n + length (written m)) 65536 }
{
    let begun = n + usize::from(m.prefixed);
    let room = 65536 - begun;
    let count = m.count as usize;
    if room <= count {
        return 65536;
    }
    begun + count
}

// Writes a body at the start of a buffer that has room for it, and answers its length. Its loop is that of `measure_body` with a store in the
// place of a count, by the same law (`Run`): one loop for both would ask at each byte which of the two it serves.
pub fn write_body(out: &mut [u8], text: &[u8], words: Words, sets: Sets) -> usize
    requires { Room out.old 0 (crunched_body (lexicon sets) text.now) }
    ensures { Put out.old 0 (crunched_body (lexicon sets) text.now) result out.new }
{
    let mut span = string::no_span(text);
    let mut at: usize = 0;
    let mut mode = Mode::Plain;
    let mut n: usize = 0;
    while at < text.len() {
        let b = text[at];
        if short::is_short(mode, b) {
            out[n] = short::short_byte(mode, b);
            mode = short::mode_behind(mode, b);
            at += 1;
            n += 1;
        } else {
            span = string::span_at(text, at, span);
            let m = step::step(text, at, span, words, sets);
            n = put_move(out, n, m);
            at += m.used;
            mode = m.mode;
        }
    }
    n
}

// Writes what a step gives, and answers the place behind it.
fn put_move(out: &mut [u8], n: usize, m: Move) -> usize
    requires { Room out.old n (written m) }
    ensures { Put out.old n (written m) result out.new }
{
    let from = put_prefix(out, n, m.prefixed);
    if m.count == 1 {
        out[from] = m.byte;
        return from + 1;
    }
    fill(out, from, m.byte, m.count as usize)
}

fn put_prefix(out: &mut [u8], n: usize, prefixed: bool) -> usize
    requires { Room out.old n (prefix_of prefixed) }
    ensures { Put out.old n (prefix_of prefixed) result out.new }
{
    if prefixed {
        out[n] = 0x64;
        return n + 1;
    }
    n
}

// Writes a byte so many times, and answers the place behind them.
fn fill(out: &mut [u8], at: usize, byte: u8, count: usize) -> usize
    requires { Room out.old at (replicate count byte) }
    ensures { Put out.old at (replicate count byte) result out.new }
{
    let to = at + count;
    out[at..to].fill(byte);
    to
}
