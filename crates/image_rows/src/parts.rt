// A text put together part by part. What has no room in the buffer is only counted, so that the same calls tell the room that a text needs.
ghost use Rattle.std.specs.Prelude.{◌≤◌, length};
ghost use Rattle.say_put.specs.Rows.{filled};
ghost use Rattle.image_rows.specs.PartHelpers.{Adds};

use say_put::{fill, put_text};

// Adds a text, and answers the place behind it.
pub fn add_text(out: &mut [u8], at: usize, text: &[u8]) -> usize
    requires { (at ≤ 1152921504606846976) × (length text.now ≤ 2560) }
    ensures { Adds out.old at text.now result out.new }
{
    let behind = at + text.len();
    if out.len() <= at {
        return behind;
    }
    put_text(out, at, text);
    behind
}

// The same of a row with three numbers for its marks.
pub fn add_row(
    out: &mut [u8],
    at: usize,
    row: &[u8],
    first: usize,
    second: usize,
    third: usize,
) -> usize
    requires { (at ≤ 1152921504606846976) × (length row.now ≤ 128) }
    ensures { Adds out.old at (filled row.now first second third) result out.new }
{
    let mut line = [0u8; 2560];
    let n = fill(&mut line, 0, row, first, second, third);
    add_text(out, at, &line[..n])
}
