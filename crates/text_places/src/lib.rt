// Where an offset in a text stands, as an editor shows it.
#![tactic(auto)]

ghost use Rattle.std.specs.Prelude.{◌≡◌, ◌≤◌, ◌<◌, length};
ghost use Rattle.text_places.specs.Place.{ends_line, place_behind as past_of, text_place};

// Both are counted from 1.
#[derive(Clone, Copy)]
pub struct Place {
    pub line: usize,
    pub column: usize,
}

// Whether a byte ends a line in front of what follows it: LF, and CR with no LF behind it.
fn ends_line(b: u8, rest: &[u8]) -> bool
    ensures { result ≡ ends_line b rest.now }
{
    b == b'\n' || (b == b'\r' && !rest.starts_with(b"\n"))
}

// The place behind a byte.
fn past(place: Place, b: u8, rest: &[u8]) -> Place
    requires { (place.line ≤ 1048576) × (place.column ≤ 1048576) }
    ensures { result ≡ past_of place b rest.now }
{
    if ends_line(b, rest) {
        Place {
            line: place.line + 1,
            column: 1,
        }
    } else if b == 0x80 {
        place
    } else {
        Place {
            column: place.column + 1,
            ..place
        }
    }
}

// The place of an offset.
pub fn place_of(text: &[u8], offset: usize) -> Place
    requires { length text.now ≤ 1048576 }
    ensures { result ≡ text_place text.now offset }
{
    let mut at = Place { line: 1, column: 1 };
    for i in 0..offset.min(text.len()) {
        at = past(at, text[i], &text[i + 1..]);
    }
    at
}
