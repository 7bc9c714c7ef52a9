// What `find`, `where` and `jumps` show of an image, as texts in a lent buffer: the whole text, or the room that it needs.
#![tactic(auto)]

ghost use Rattle.std.specs.Prelude.{◌≡◌, ◌≤◌, length};
ghost use Rattle.base_refusals.specs.Answer.{done};
ghost use Rattle.base_lent.specs.Lent.{into_buffer, left};
ghost use Rattle.image_rows.specs.Found.{found_row, missing_row};

use base_refusals::Refusal;
use image_readers::Line;
use say_put::lend_row;

pub mod jumps;
mod parts;
pub mod places;

// The row of a line that was found by its number, after so many headers.
pub fn lend_found(line: Line, visited: usize, out: &mut [u8]) -> Result<usize, Refusal>
    ensures { left result out.new ≡ into_buffer (done (found_row line visited)) out.old }
{
    let link = line.link as usize;
    lend_row(
        b"",
        b"address #, link #, headers visited #",
        line.address,
        link,
        visited,
        out,
    )
}

// The row of a number that no line has, behind the name of what was read.
pub fn lend_missing(
    name: &[u8],
    number: u16,
    visited: usize,
    out: &mut [u8],
) -> Result<usize, Refusal>
    requires { length name.now ≤ 4352 }
    ensures { left result out.new ≡ into_buffer (done (missing_row name.now number visited)) out.old }
{
    lend_row(
        name,
        b": no line #, headers visited #",
        number as usize,
        visited,
        0,
        out,
    )
}
