// Where the lines of an image come from: the text lines that give them, found in one pass.
#![tactic(auto)]

ghost use Rattle.std.specs.Prelude.{◌≤◌, length};
ghost use Rattle.base_ascii.specs.Trim.{trim as trim_of};
ghost use Rattle.say_put.specs.Clipped.{Clipped};
ghost use Rattle.crunch_rules.specs.Measured.{unless_blank, nonblank_lines};

use text_lines::LineRule;

// Stores a text line's number from a place on, unless the line is blank or there is no room, and answers the place behind it.
#[tactic(auto, using(crate::proofs::Pairing::blank_put))]
fn put_origin(out: &mut [usize], to: usize, number: usize, line: &[u8]) -> usize
    requires { to ≤ length out.old }
    ensures { Clipped out.old to (unless_blank number (trim_of line.now)) result out.new }
{
    if base_ascii::trim(line).is_empty() || to >= out.len() {
        return to;
    }
    out[to] = number;
    to + 1
}

// Stores the text line of each line that a text gives its image, counted from 1, blank ones too; as many as fit. Answers how many were
// stored. `measured_lines` pairs an image's lines with these, one by one.
pub fn origins(text: &[u8], out: &mut [usize]) -> usize
    ensures { Clipped out.old 0 (nonblank_lines text.now) result out.new }
{
    let mut at: usize = 0;
    let mut number: usize = 0;
    let mut to: usize = 0;
    while at < text.len() {
        let next = text_lines::next_line(text, at, LineRule::AfterCr);
        number += 1;
        to = put_origin(out, to, number, &text[next.begin..next.end]);
        at = next.next;
    }
    to
}
