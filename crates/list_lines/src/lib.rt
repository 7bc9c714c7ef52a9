// The listing of one body and of one line.
#![tactic(auto)]

ghost use Rattle.std.specs.Prelude.{◌≡◌, ◌≤◌, length};
ghost use Rattle.base_lent.specs.Stores.{Room, Put};
ghost use Rattle.list_lines.specs.Body.{body_listing};
ghost use Rattle.list_lines.specs.LineHelpers.{head_listing, rest_listing, LineLength};

use image_units::{Mode, Rules};
use list_texts::Texts;

pub mod decimal;

// How long the listing of a body is.
pub fn measure_body(texts: Texts, rules: Rules, body: &[u8]) -> usize
    requires { (length body.now ≤ 1048576) }
    ensures { result ≡ length (body_listing rules body.now) }
{
    let mut i: usize = 0;
    let mut n: usize = 0;
    let mut mode = Mode::Plain;
    while i < body.len() {
        if list_spelling::lists_as_itself(body[i]) {
            n += 1;
            i += 1;
        } else {
            let taken = image_units::unit_at(body, i, mode, rules);
            n += list_spelling::unit_length(texts, taken.unit);
            i += taken.used;
            mode = taken.mode;
        }
    }
    n
}

// Stores the listing of a body from a place on, and answers the place behind it. A second loop beside `measure_body`: one for both would ask at each
// unit which of the two it serves.
pub fn put_body(out: &mut [u8], at: usize, texts: Texts, rules: Rules, body: &[u8]) -> usize
    requires { (length body.now ≤ 1048576) × Room out.old at (body_listing rules body.now) }
    ensures { Put out.old at (body_listing rules body.now) result out.new }
{
    let mut i: usize = 0;
    let mut to = at;
    let mut mode = Mode::Plain;
    while i < body.len() {
        let b = body[i];
        if list_spelling::lists_as_itself(b) {
            out[to] = b;
            to += 1;
            i += 1;
        } else {
            let taken = image_units::unit_at(body, i, mode, rules);
            to = list_spelling::put_unit(out, to, texts, taken.unit);
            i += taken.used;
            mode = taken.mode;
        }
    }
    to
}

// How long the listing of a line is.
pub fn measure_line(texts: Texts, rules: Rules, number: u16, body: &[u8]) -> usize
    requires { (length body.now ≤ 1048576) }
    ensures { LineLength rules number body.now result }
{
    decimal::places(number) + measure_body(texts, rules, body) + 2
}

// Stores a line's number and the space from a place on, and answers the place behind them.
pub fn put_head(out: &mut [u8], at: usize, number: u16) -> usize
    requires { Room out.old at (head_listing number) }
    ensures { Put out.old at (head_listing number) result out.new }
{
    let space = decimal::put_decimal(out, at, number);
    out[space] = b' ';
    space + 1
}

// Stores a line's body and its end from a place on, and answers the place behind them.
pub fn put_rest(out: &mut [u8], at: usize, texts: Texts, rules: Rules, body: &[u8]) -> usize
    requires { (length body.now ≤ 1048576) × Room out.old at (rest_listing rules body.now) }
    ensures { Put out.old at (rest_listing rules body.now) result out.new }
{
    let to = put_body(out, at, texts, rules, body);
    out[to] = b'\n';
    to + 1
}
