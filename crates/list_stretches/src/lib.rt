// The listing of a line in stretches, each in a lent buffer of any size.
#![tactic(auto)]

ghost use Rattle.std.specs.Prelude.{◌≡◌, ◌&&◌, ◌-◌, ◌≤◌, length, leb, ltb};
ghost use Rattle.std.proofs.lemmas.List.Edits.{sets};
ghost use Rattle.list_spelling.specs.ItselfHelpers.{lists_as_itself};
ghost use Rattle.list_spelling.specs.Pieces.{unit_text};
ghost use Rattle.list_options.specs.Modes.{rules_under};
ghost use Rattle.list_stretches.specs.Stretch.{body_stretch, stretch_of, stretch_answer};
ghost use Rattle.list_stretches.specs.StretchHelpers.{run_at, RunPut, StretchPut};

use image_units::{Mode, Rules, Unit};
use list_lines::decimal;
use list_options::ListOptions;
use list_texts::Texts;

// What is left of a line: all of it, its body from a place on and the line's end, or nothing.
#[derive(Clone, Copy)]
pub enum Place {
    Number(u16),
    Body { at: usize, mode: Mode },
    Over,
}

// How many bytes a stretch has, and the place behind it.
#[derive(Clone, Copy)]
pub struct Stretch {
    pub length: usize,
    pub place: Place,
}

// Where a walk over a body stands: in the buffer, in the body, and in which mode.
#[derive(Clone, Copy)]
struct Spot {
    to: usize,
    at: usize,
    mode: Mode,
}

// Stores at a buffer's start what it holds of a line from a place on, in whole pieces. A buffer of nine bytes or more always holds one.
pub fn list_stretch(body: &[u8], options: ListOptions, place: Place, out: &mut [u8]) -> Stretch
    ensures { (result ≡ stretch_answer (stretch_of (rules_under options) body.now (length out.old) place))
        × (out.new ≡ sets out.old 0 (stretch_of (rules_under options) body.now (length out.old) place).text) }
{
    put_stretch(
        out,
        list_texts::stored_texts(),
        list_options::rules_under(options),
        body,
        place,
    )
}

fn put_stretch(out: &mut [u8], texts: Texts, rules: Rules, body: &[u8], place: Place) -> Stretch
    ensures { StretchPut (stretch_of rules body.now (length out.old) place) out.old 0 result out.new }
{
    match place {
        Place::Number(number) => {
            if decimal::places(number) + 1 > out.len() {
                return Stretch { length: 0, place };
            }
            let to = list_lines::put_head(out, 0, number);
            let spot = Spot {
                to,
                at: 0,
                mode: Mode::Plain,
            };
            put_body_stretch(out, texts, rules, body, spot)
        }
        Place::Body { at, mode } => {
            let spot = Spot { to: 0, at, mode };
            put_body_stretch(out, texts, rules, body, spot)
        }
        Place::Over => Stretch { length: 0, place },
    }
}

// What a buffer holds of a body and the line's end from a spot on.
fn put_body_stretch(out: &mut [u8], texts: Texts, rules: Rules, body: &[u8], spot: Spot) -> Stretch
    requires { (spot.to ≤ length out.old) }
    ensures { StretchPut (body_stretch rules body.now (length out.old - spot.to) spot.at spot.mode) out.old spot.to result out.new }
{
    let Spot { to, at, mode } = put_run(out, texts, rules, body, spot);
    if at < body.len() || to >= out.len() {
        let place = Place::Body { at, mode };
        return Stretch { length: to, place };
    }
    out[to] = b'\n';
    Stretch {
        length: to + 1,
        place: Place::Over,
    }
}

// What a buffer holds of the units of a body from a spot on. A loop of its own beside `put_body`, which has room for the whole body and asks for none.
fn put_run(out: &mut [u8], texts: Texts, rules: Rules, body: &[u8], spot: Spot) -> Spot
    requires { (spot.to ≤ length out.old) }
    ensures { RunPut (run_at rules body.now out.old spot) out.old spot result out.new }
{
    let mut to = spot.to;
    let mut at = spot.at;
    let mut mode = spot.mode;
    while at < body.len() {
        let room = out.len() - to;
        let b = body[at];
        if holds_itself(room, b) {
            out[to] = b;
            to += 1;
            at += 1;
        } else {
            let taken = image_units::unit_at(body, at, mode, rules);
            if !fits(texts, taken.unit, room) {
                return Spot { to, at, mode };
            }
            to = list_spelling::put_unit(out, to, texts, taken.unit);
            at += taken.used;
            mode = taken.mode;
        }
    }
    Spot { to, at, mode }
}

// Whether a byte is listed as itself, and a room holds it.
fn holds_itself(room: usize, b: u8) -> bool
    ensures { result ≡ (ltb 0 room && lists_as_itself b) }
{
    room > 0 && list_spelling::lists_as_itself(b)
}

// Whether a room holds a unit's text: nine bytes hold any.
fn fits(texts: Texts, unit: Unit, room: usize) -> bool
    ensures { result ≡ leb (length (unit_text unit)) room }
{
    room >= 9 || list_spelling::unit_length(texts, unit) <= room
}
