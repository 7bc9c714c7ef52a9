// The jumps of a body, one after the other.
#![tactic(auto)]

ghost use Rattle.std.specs.Prelude.{◌≡◌, true, false, [], ◌+◌, ◌≤◌, ◌<◌, length, get_or, drop};
ghost use Rattle.image_jumps.specs.Jumps.{heeded, with_digit, targets_from, opened_list, low};
ghost use Rattle.image_jumps.specs.JumpHelpers.{low_part, Opens, BehindGo, Moves, NextIs};

use base_ascii::search;
use base_ascii::search::Kind;
use image_units::{Mode, Rules};

// A place of a body: the byte there, its mode, whether it stands in a list, and the list's number so far, if a digit was read.
#[derive(Clone, Copy)]
pub struct Cursor {
    pub at: usize,
    pub mode: Mode,
    pub listed: bool,
    pub part: Option<usize>,
}

// A jump, and the place behind it. A target above 65535 is told as 65536.
#[derive(Clone, Copy)]
pub struct Jump {
    pub target: usize,
    pub cursor: Cursor,
}

// What a step told, and where it led.
#[derive(Clone, Copy)]
struct Moved {
    told: Option<usize>,
    cursor: Cursor,
}

// The place before a body's first byte.
pub fn first() -> Cursor
    ensures { result ≡ record { at = 0; mode = Mode.Plain; listed = false; part = None } }
{
    Cursor {
        at: 0,
        mode: Mode::Plain,
        listed: false,
        part: None,
    }
}

// The next jump from a place on.
pub fn next_jump(body: &[u8], cursor: Cursor) -> Option<Jump>
    ensures { NextIs body.now cursor result }
{
    let mut cursor = cursor;
    while cursor.at < body.len() {
        let moved = step(body, cursor);
        cursor = moved.cursor;
        if let Some(target) = moved.told {
            return Some(Jump {
                target: cut(target),
                cursor,
            });
        }
    }
    last(body, cursor)
}

// At a body's end: the list's last number, if there is one.
fn last(body: &[u8], cursor: Cursor) -> Option<Jump>
    requires { length body.now ≤ cursor.at }
    ensures { NextIs body.now cursor result }
{
    match cursor.part {
        Some(target) if cursor.listed => Some(Jump {
            target: cut(target),
            cursor: Cursor {
                listed: false,
                part: None,
                ..cursor
            },
        }),
        _ => None,
    }
}

// One unit of the text, or one byte of a list.
fn step(body: &[u8], cursor: Cursor) -> Moved
    requires { cursor.at < length body.now }
    ensures { Moves body.now cursor result }
{
    if cursor.listed {
        return list_step(body, cursor);
    }
    text_step(body, cursor)
}

// One byte of a list, or the first byte behind it, which is left to be read as any other.
fn list_step(body: &[u8], cursor: Cursor) -> Moved
    requires { (cursor.at < length body.now) × (cursor.listed ≡ true) }
    ensures { Moves body.now cursor result }
{
    let at = cursor.at;
    let mode = cursor.mode;
    let part = cursor.part;
    let b = body[at];
    if base_ascii::is_digit(b) {
        return lead(None, at + 1, mode, true, with_digit(part, b - 48));
    }
    if b == 0x20 {
        return lead(None, at + 1, mode, true, part);
    }
    if b == 0x2C {
        return lead(part, at + 1, mode, true, None);
    }
    lead(part, at, mode, false, None)
}

fn lead(told: Option<usize>, at: usize, mode: Mode, listed: bool, part: Option<usize>) -> Moved
    ensures { result ≡ record { told = told; cursor = record { at = at; mode = mode; listed = listed; part = part } } }
{
    Moved {
        told,
        cursor: Cursor {
            at,
            mode,
            listed,
            part,
        },
    }
}

// A part with one digit more, cut at 65536.
fn with_digit(part: Option<usize>, digit: u8) -> Option<usize>
    ensures { result ≡ low_part (with_digit part digit) }
{
    match part {
        None => Some(usize::from(digit)),
        Some(value) => {
            if value > 6553 {
                return Some(65536);
            }
            Some(cut(value * 10 + usize::from(digit)))
        }
    }
}

// A target, cut at 65536.
fn cut(target: usize) -> usize
    ensures { result ≡ low target }
{
    target.min(65536)
}

// One unit of the text, or all that opens a list.
fn text_step(body: &[u8], cursor: Cursor) -> Moved
    requires { (cursor.at < length body.now) × (cursor.listed ≡ false) }
    ensures { Moves body.now cursor result }
{
    let at = cursor.at;
    let mode = cursor.mode;
    match list_at(body, at, mode) {
        Some(from) => lead(None, from, Mode::Plain, true, None),
        None => unit_step(body, at, mode),
    }
}

// One unit that opens no list.
fn unit_step(body: &[u8], at: usize, mode: Mode) -> Moved
    requires { (at < length body.now) × (targets_from None (opened_list mode (get_or body.now at 0) (drop (at + 1) body.now)) ≡ []) }
    ensures { Moves body.now (record { at = at; mode = mode; listed = false; part = None }) result }
{
    let taken = image_units::unit_at(body, at, mode, heed());
    let used = taken.used;
    let behind = taken.mode;
    lead(None, at + used, behind, false, None)
}

fn heed() -> Rules
    ensures { result ≡ heeded }
{
    Rules {
        prefix: true,
        remarks: true,
        items: true,
        basic35: false,
    }
}

// The list that the byte at a place opens, which must be plain text.
fn list_at(body: &[u8], at: usize, mode: Mode) -> Option<usize>
    requires { at < length body.now }
    ensures { Opens body.now at mode result }
{
    match mode {
        Mode::Plain => plain_list(body, at),
        _ => None,
    }
}

// GOTO, GOSUB and THEN open a list, and GO with TO behind it.
fn plain_list(body: &[u8], at: usize) -> Option<usize>
    requires { at < length body.now }
    ensures { Opens body.now at Mode.Plain result }
{
    match body[at] {
        0x89 | 0x8D | 0xA7 => Some(at + 1),
        0xCB => behind_go(body, at + 1),
        _ => None,
    }
}

// Behind GO: spaces, and then TO.
fn behind_go(body: &[u8], from: usize) -> Option<usize>
    requires { from ≤ length body.now }
    ensures { BehindGo body.now from result }
{
    let to = from + search::front(&body[from..], Kind::Space);
    if to < body.len() && body[to] == 0xA4 {
        Some(to + 1)
    } else {
        None
    }
}
