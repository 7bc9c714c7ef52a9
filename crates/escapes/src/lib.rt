// What stands between braces in a string: a byte and how often it is repeated, or nothing known.
#![tactic(auto)]

ghost use Rattle.std.specs.Prelude.{◌≡◌, ◌≤◌, length, take, drop};
ghost use Rattle.base_ascii.specs.Bytes.{is_space};
ghost use Rattle.base_ascii.specs.Search.{past};
ghost use Rattle.escape_bytes.specs.Escape.{escape_of, name_escape};
ghost use Rattle.escapes.specs.TailHelpers.{TailOf, repeat_of};

use base_ascii::search;
use base_ascii::search::Kind;
use escape_bytes::Escape;
use word_tables::{Words, spellings};

mod keys;

// What a text shares with every end of it, so that it is found once for many { in front of one }.
#[derive(Clone, Copy)]
pub struct Tail {
    // How many bytes are left without the white space at the end.
    pub end: usize,
    // The count that stands there, if any.
    pub repeat: Option<Repeat>,
}

// A count above 0, behind a `*`.
#[derive(Clone, Copy)]
pub struct Repeat {
    // The place behind the `*`.
    pub from: usize,
    // How many bytes before the `*` are left without the white space in front of it.
    pub name: usize,
    pub count: u64,
}

// The escape between two braces.
pub fn petscii_escape(inside: &[u8]) -> Option<Escape>
    ensures { result ≡ escape_of inside.now }
{
    resolve_petscii_escape(inside, spellings::stored_words())
}

// The same, with the tables lent.
pub fn resolve_petscii_escape(inside: &[u8], words: Words) -> Option<Escape>
    ensures { result ≡ escape_of inside.now }
{
    escape_from(inside, 0, tail_of(inside), words)
}

// The tail of a text. The text is read once for it, and not again for any end of it.
pub fn tail_of(inside: &[u8]) -> Tail
    ensures { TailOf inside.now result }
{
    let end = base_ascii::solid_length(inside);
    Tail {
        end,
        repeat: repeat_of(&inside[..end]),
    }
}

// The count at the end of a text that ends in no white space.
fn repeat_of(text: &[u8]) -> Option<Repeat>
    ensures { result ≡ repeat_of text.now }
{
    // A count ends in a digit: most escapes have none, and no `*` is looked for.
    if !escape_numbers::may_end_in_count(text) {
        return None;
    }
    let star = search::last(text, Kind::Is(b'*'))?;
    let from = star + 1;
    let count = escape_numbers::count_of(base_ascii::trim(&text[from..]))?;
    if count == 0 {
        return None;
    }
    Some(Repeat {
        from,
        name: base_ascii::solid_length(&text[..star]),
        count,
    })
}

// The escape that a text is from a place on, by the text's tail.
pub fn escape_from(inside: &[u8], at: usize, tail: Tail, words: Words) -> Option<Escape>
    requires { TailOf inside.now tail }
    ensures { result ≡ escape_of (drop at inside.now) }
{
    match tail.repeat {
        Some(repeat) if at < repeat.from => {
            resolve_name(part(inside, at, repeat.name), repeat.count, words)
        }
        _ => resolve_name(part(inside, at, tail.end), 1, words),
    }
}

// A text from one place up to another, without the white space in front.
fn part(text: &[u8], from: usize, to: usize) -> &[u8]
    requires { to ≤ length text.now }
    ensures { result.now ≡ past is_space (drop from (take to text.now)) }
{
    if to <= from {
        return &text[..0];
    }
    let rest = &text[from..to];
    let blanks = base_ascii::leading_space(rest);
    &rest[blanks..]
}

// The escape of a name without its count.
fn resolve_name(name: &[u8], count: u64, words: Words) -> Option<Escape>
    ensures { result ≡ name_escape name.now count }
{
    if name.is_empty() {
        return None;
    }
    if let Some(code) = escape_numbers::number_in(name, 10, 255) {
        return Some(Escape {
            byte: code as u8,
            count,
        });
    }
    if let Some(code) = escape_numbers::hex_number(name) {
        return Some(Escape {
            byte: code as u8,
            count,
        });
    }
    if let Some(found) = word_match::match_escape(name, words) {
        return Some(Escape {
            byte: found.token,
            count,
        });
    }
    keys::key_escape(name, count)
}
