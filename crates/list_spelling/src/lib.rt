// How the units of a body are spelt in a listing.
#![tactic(auto)]

ghost use Rattle.std.specs.Prelude.{◌≡◌, ◌+◌, ◌≤◌, length, take};
ghost use Rattle.std.proofs.lemmas.List.Edits.{sets};
ghost use Rattle.base_lent.specs.Stores.{Room, Put};
ghost use Rattle.list_texts.specs.TextsHelpers.{or_digits};
ghost use Rattle.word_tables.specs.Tsb.{tsb_id, tsb_text};
ghost use Rattle.list_spelling.specs.ItselfHelpers.{lists_as_itself};
ghost use Rattle.list_spelling.specs.Pieces.{unknown_pair, unit_text};

use image_units::Unit;
use list_texts::Texts;

// Whether a byte is listed as itself in every mode, and changes none.
pub fn lists_as_itself(b: u8) -> bool
    ensures { result ≡ lists_as_itself b }
{
    match b {
        b'"' | b':' => false,
        0x20..=0x5F => true,
        _ => false,
    }
}

// How long a unit's text is.
pub fn unit_length(texts: Texts, unit: Unit) -> usize
    ensures { result ≡ length (unit_text unit) }
{
    match unit {
        Unit::Char(b) => list_bytes::byte_to_string(b).len,
        Unit::Token(b) => token_length(list_texts::word_at(texts, b), b),
        Unit::Token35(b) => token_length(list_texts::word35_at(texts, b), b),
        Unit::Pair(b) => {
            let word = tsb_word(texts, b);
            if word.is_empty() { 8 } else { word.len() }
        }
        Unit::Lone => 4,
        Unit::Remarked(b) => list_bytes::remark_to_string(b).len,
    }
}

// How long the text of a token is that has this word.
fn token_length(word: &[u8], b: u8) -> usize
    ensures { result ≡ length (or_digits b word.now) }
{
    if !word.is_empty() {
        word.len()
    } else if b < 0xCC {
        0
    } else {
        4
    }
}

// Stores a unit's text from a place on, and answers the place behind it.
pub fn put_unit(out: &mut [u8], at: usize, texts: Texts, unit: Unit) -> usize
    requires { Room out.old at (unit_text unit) }
    ensures { Put out.old at (unit_text unit) result out.new }
{
    match unit {
        Unit::Char(b) => {
            let text = list_bytes::byte_to_string(b);
            put(out, at, &text.bytes[..text.len])
        }
        Unit::Token(b) => put_token(out, at, list_texts::word_at(texts, b), b),
        Unit::Token35(b) => put_token(out, at, list_texts::word35_at(texts, b), b),
        Unit::Pair(b) => {
            let word = tsb_word(texts, b);
            if word.is_empty() {
                put(out, at, &pair_digits(b))
            } else {
                put(out, at, word)
            }
        }
        Unit::Lone => put(out, at, b"{64}"),
        Unit::Remarked(b) => {
            let text = list_bytes::remark_to_string(b);
            put(out, at, &text.bytes[..text.len])
        }
    }
}

// Stores the text of a token that has this word from a place on, and answers the place behind it. Most units are tokens, so it
// stands where it is called.
#[inline(always)]
fn put_token(out: &mut [u8], at: usize, word: &[u8], b: u8) -> usize
    requires { Room out.old at (or_digits b word.now) }
    ensures { Put out.old at (or_digits b word.now) result out.new }
{
    if !word.is_empty() {
        put(out, at, word)
    } else if b < 0xCC {
        at
    } else {
        put(out, at, &list_texts::digits(b))
    }
}

// Stores a text from a place on, and answers the place behind it. One byte is stored at once, and two to eight, as most words have, by the
// first two or four and as many at the end: a copy of a known size takes no call.
pub fn put(out: &mut [u8], at: usize, text: &[u8]) -> usize
    requires { Room out.old at text.now }
    ensures { Put out.old at text.now result out.new }
{
    let end = at + text.len();
    match text.len() {
        1 => out[at] = text[0],
        2..=3 => put_ends::<2>(out, at, text),
        4..=8 => put_ends::<4>(out, at, text),
        _ => out[at..end].copy_from_slice(text),
    }
    end
}

// Stores the first N bytes of a text, and the last N: of N to twice as many, that is all. It stands where it is called, since a call would
// cost more than the copy.
#[inline(always)]
fn put_ends<const N: usize>(out: &mut [u8], at: usize, text: &[u8])
    requires { Room out.old at text.now × (N ≤ length text.now) × (length text.now ≤ N + N) }
    ensures { out.new ≡ sets out.old at text.now }
{
    let last = text.len() - N;
    put_front::<N>(out, at, text);
    put_front::<N>(out, at + last, &text[last..]);
}

// Stores the first N bytes of a text. All are read before one is stored, so that they move as one. It stands where it is called, for the same
// reason.
#[inline(always)]
fn put_front<const N: usize>(out: &mut [u8], at: usize, text: &[u8])
    requires { (at + N ≤ length out.old) × (N ≤ length text.now) }
    ensures { out.new ≡ sets out.old at (take N text.now) }
{
    let front = *text.first_chunk::<N>().unwrap();
    out[at..at + N].copy_from_slice(&front);
}

// The TSB word of 64 and the byte behind it; empty where there is none.
pub fn tsb_word<'a, 's>(texts: Texts<'a, 's>, b: u8) -> &'a [u8]
    ensures { result.now ≡ tsb_text b }
{
    let id = tsb_id(b);
    if id < 0x80 {
        list_texts::word_at(texts, id)
    } else {
        &texts.bytes[..0]
    }
}

// The byte that a TSB word is listed under: B1, B2 and B3 are read as 3E, 3D and 3C.
pub fn tsb_id(b: u8) -> u8
    ensures { result ≡ tsb_id b }
{
    match b {
        0xB1 => 0x3E,
        0xB2 => 0x3D,
        0xB3 => 0x3C,
        _ => b,
    }
}

fn pair_digits(b: u8) -> [u8; 8]
    ensures { result ≡ unknown_pair b }
{
    let high = list_bytes::hex_digit(b / 16);
    let low = list_bytes::hex_digit(b % 16);
    [b'{', b'6', b'4', b'}', b'{', high, low, b'}']
}
