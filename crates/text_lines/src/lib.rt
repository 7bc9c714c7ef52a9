// The lines of a text, found where they stand: nothing is copied.
#![tactic(auto)]

ghost use Rattle.std.specs.Prelude.{◌≡◌, ◌+◌, ◌≤◌, length, drop};
ghost use Rattle.base_ascii.specs.Search.{is_blank, front};
ghost use Rattle.text_lines.specs.SplitHelpers.{end_mark, line_from, run_end, AboveCr};

use base_ascii::search;
use base_ascii::search::Kind;

// What ends a line.
#[derive(Clone, Copy)]
pub enum LineRule {
    // LF and CR LF: the text as it is given.
    AsGiven,
    // LF, CR LF and a lone CR: the text as crunching reads it.
    AfterCr,
}

// A line runs up to end, and the next one begins at next; begin stands behind the blanks in front of the line.
#[derive(Clone, Copy)]
pub struct TextLine {
    pub begin: usize,
    pub end: usize,
    pub next: usize,
}

// How many bytes the line end in front of a text takes; 0 where there is none.
fn end_mark(text: &[u8], rule: LineRule) -> usize
    ensures { result ≡ end_mark rule text.now }
{
    if search::starts_with(text, 0x0A) {
        return 1;
    }
    if !search::starts_with(text, 0x0D) {
        return 0;
    }
    if search::starts_with(&text[1..], 0x0A) {
        return 2;
    }
    match rule {
        LineRule::AsGiven => 0,
        LineRule::AfterCr => 1,
    }
}

// Passes the run of one byte that begins at a place: all of it, or all but fewer than four bytes. Most runs are short. Behind sixteen bytes a
// run is passed four bytes at a time.
fn behind_run(text: &[u8], from: usize, b: u8) -> usize
    ensures { run_end b text.now result ≡ run_end b text.now from }
{
    let mut i: usize = from;
    while i < text.len() {
        if text[i] != b {
            return i;
        }
        i += 1;
        if i - from == 16 {
            return long_run(text, i, b);
        }
    }
    i
}

// The same for the rest of a long run. Fewer than four of it may be left.
fn long_run(text: &[u8], from: usize, b: u8) -> usize
    requires { from ≤ length text.now }
    ensures { run_end b text.now result ≡ run_end b text.now from }
{
    let mut i = from;
    while text.len() - i >= 4 {
        if text[i] != b || text[i + 1] != b || text[i + 2] != b || text[i + 3] != b {
            return i;
        }
        i += 4;
    }
    i
}

// The place behind the blanks that stand from a place on. Most are a run of one byte, which is passed first, with one test for each.
fn behind_blanks(text: &[u8], from: usize) -> usize
    ensures { result ≡ from + front is_blank (drop from text.now) }
{
    if text.len() <= from {
        return from;
    }
    let first = text[from];
    if !search::is_kind(first, Kind::Blank) {
        return from;
    }
    let mut i = behind_run(text, from + 1, first);
    while i < text.len() {
        if !search::is_kind(text[i], Kind::Blank) {
            return i;
        }
        i += 1;
    }
    i
}

// A place behind bytes above CR, which end no line. Behind the first they are passed four at a time, and fewer than four before the end of the
// text are left.
fn behind_fours(text: &[u8], from: usize) -> usize
    ensures { AboveCr text.now from result }
{
    if text.len() <= from || text[from] <= 0x0D {
        return from;
    }
    let mut i: usize = from + 1;
    while text.len() - i >= 4 {
        if text[i] <= 0x0D {
            return i;
        }
        if text[i + 1] <= 0x0D {
            return i + 1;
        }
        if text[i + 2] <= 0x0D {
            return i + 2;
        }
        if text[i + 3] <= 0x0D {
            return i + 3;
        }
        i += 4;
    }
    i
}

// The line that begins at from.
pub fn next_line(text: &[u8], from: usize, rule: LineRule) -> TextLine
    ensures { result ≡ line_from rule text.now from }
{
    // In a run of line ends each line ends where it begins.
    if from < text.len() && text[from] == 0x0A {
        return TextLine {
            begin: from,
            end: from,
            next: from + 1,
        };
    }
    let begin = behind_blanks(text, from);
    let mut i = begin;
    while i < text.len() {
        // No byte above CR ends a line.
        if text[i] > 0x0D {
            i = behind_fours(text, i + 1);
        } else {
            let mark = end_mark(&text[i..], rule);
            if mark > 0 {
                return TextLine {
                    begin,
                    end: i,
                    next: i + mark,
                };
            }
            i += 1;
        }
    }
    TextLine {
        begin,
        end: i,
        next: i,
    }
}
