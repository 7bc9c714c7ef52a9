// Which TSB words a line uses as variables.
#![tactic(auto)]

ghost use Rattle.std.specs.Prelude.{◌≡◌, reverse, ◌*◌, ◌+◌, ◌≤◌, ◌<◌, true, length, get_or, take, drop};
ghost use Rattle.base_ascii.specs.Bytes.{is_letter};
ghost use Rattle.base_ascii.specs.declared.search.Kind.TheVariants.{Space};
ghost use Rattle.guess_variables.specs.Variables.{after_dim, is_name, word_pass, plain_pass, pass_of, line_names};
ghost use Rattle.guess_uses.specs.MarkHelpers.{MarksOf};

use base_ascii::search;
use base_ascii::search::Kind;
use guess_places::place::Place;
use guess_places::{beginnings, place};
use guess_uses::{ahead, lists};
use word_search::Match;
use word_tables::Words;

#[derive(Clone, Copy)]
pub enum Pass {
    // A remark: the rest of the line counts for nothing.
    Remark,
    On { used: usize, place: Place },
    // A TSB word, by its place in the list, that is a variable.
    Name { index: usize, used: usize },
}

// Whether DIM stands before i, with white space at most between.
fn after_dim(line: &[u8], i: usize) -> bool
    requires { i ≤ length line.now }
    ensures { result ≡ after_dim (reverse (take i line.now)) }
{
    let end = search::solid(&line[..i], Kind::White);
    i >= 4 && end >= 3 && word_search::begins(b"DIM", &line[end - 3..end])
}

// Whether a TSB word of so many bytes at i is a variable.
fn is_name(line: &[u8], i: usize, used: usize, marks: &[u8]) -> bool
    requires { (i + used ≤ length line.now) × MarksOf Space line.now marks.now }
    ensures { result ≡ is_name (reverse (take i line.now)) (drop i line.now) used }
{
    let behind = i + used;
    ahead::assigns(&line[behind..], Kind::Space, marks) || after_dim(line, i)
}

fn on(used: usize, place: Place) -> Pass
    ensures { result ≡ Pass.On used place }
{
    Pass::On { used, place }
}

// A step at a place where a TSB word may stand.
fn word_pass(line: &[u8], i: usize, marks: &[u8], words: Words) -> Pass
    requires { (i ≤ length line.now) × MarksOf Space line.now marks.now }
    ensures { result ≡ word_pass (reverse (take i line.now)) (drop i line.now) }
{
    match beginnings::tsb_word(&line[i..], words) {
        Some(Match { index, used, .. }) => {
            if is_name(line, i, used, marks) {
                Pass::Name { index, used }
            } else {
                on(used, Place::Within)
            }
        }
        None => on(1, Place::Within),
    }
}

// A step at a letter outside strings and DATA.
fn letter_pass(line: &[u8], i: usize, marks: &[u8], words: Words) -> Pass
    requires { (i < length line.now) × MarksOf Space line.now marks.now × (is_letter (get_or line.now i 0) ≡ true) }
    ensures { result ≡ plain_pass (reverse (take i line.now)) (drop i line.now) }
{
    let text = &line[i..];
    if beginnings::begins_rem(text) {
        return Pass::Remark;
    }
    if beginnings::begins_data(text) {
        return on(4, Place::Data);
    }
    word_pass(line, i, marks, words)
}

// A step outside strings and DATA: no word stands but at a letter.
fn plain_pass(line: &[u8], i: usize, marks: &[u8], words: Words) -> Pass
    requires { (i < length line.now) × MarksOf Space line.now marks.now }
    ensures { result ≡ plain_pass (reverse (take i line.now)) (drop i line.now) }
{
    let b = line[i];
    if base_ascii::is_letter(b) {
        letter_pass(line, i, marks, words)
    } else if b == b'"' {
        on(1, Place::Quoted)
    } else {
        on(1, Place::Within)
    }
}

fn next_pass(line: &[u8], i: usize, place: Place, marks: &[u8], words: Words) -> Pass
    requires { (i < length line.now) × MarksOf Space line.now marks.now }
    ensures { result ≡ pass_of (reverse (take i line.now)) place (drop i line.now) }
{
    if place::is_plain(place) {
        plain_pass(line, i, marks, words)
    } else {
        on(1, place::aside(place, line[i]))
    }
}

fn marked_names(line: &[u8], marks: &[u8], words: Words, found: &mut [bool])
    requires { MarksOf Space line.now marks.now × (123 ≤ length found.old) }
    ensures { found.new ≡ line_names line.now found.old }
{
    let mut i: usize = 0;
    let mut place = Place::Within;
    while i < line.len() {
        match next_pass(line, i, place, marks, words) {
            Pass::Remark => return,
            Pass::On { used, place: next } => {
                let behind = i + used;
                i = behind + place::stretch(next, &line[behind..]);
                place = next;
            }
            Pass::Name { index, used } => {
                found[index] = true;
                i += used;
                place = Place::Within;
            }
        }
    }
}

// The same, with marks, which a line has room for that has at most eight bytes to each of so many.
fn names_by_marks<const N: usize>(line: &[u8], words: Words, found: &mut [bool])
    requires { (length line.now ≤ 8 * N) × (N ≤ 131072) × (123 ≤ length found.old) }
    ensures { found.new ≡ line_names line.now found.old }
{
    let mut marks = [0u8; N];
    let mut levels = [0u8; N];
    lists::mark(line, Kind::Space, &mut marks, &mut levels);
    marked_names(line, &marks, words, found);
}

// Adds the words that the line uses as variables to those that were found. Room for marks as in `guess_evidence`.
pub fn line_names(line: &[u8], words: Words, found: &mut [bool])
    requires { (123 ≤ length found.old) }
    ensures { found.new ≡ line_names line.now found.old }
{
    match line.len() {
        257..=16384 => names_by_marks::<2048>(line, words, found),
        16385..=1048576 => names_by_marks::<131072>(line, words, found),
        _ => marked_names(line, b"", words, found),
    }
}
