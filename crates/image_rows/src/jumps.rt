// Which lines jump where: a row for each number that is jumped to, as crate `image_references` tells them, and in it the lines of its jumps.
ghost use Rattle.std.specs.Prelude.{◌≡◌, ◌≤◌, length};
ghost use Rattle.base_refusals.specs.Answer.{done};
ghost use Rattle.base_lent.specs.Lent.{into_buffer, left};
ghost use Rattle.base_lent.specs.Stores.{Put};
ghost use Rattle.image_rows.specs.Jumps.{target_text, sources_text, places_on, jumps_text};
ghost use Rattle.image_rows.specs.PartHelpers.{Adds, AddsMany};

use crate::parts::{add_row, add_text};
use base_refusals::Refusal;

// A number that is jumped to, and whether a line has it.
fn add_target(out: &mut [u8], at: usize, number: usize, there: bool) -> usize
    requires { at ≤ 1152921504606846976 }
    ensures { Adds out.old at (target_text number there) result out.new }
{
    if there {
        add_row(out, at, b"#:", number, 0, 0)
    } else {
        add_row(out, at, b"# (missing):", number, 0, 0)
    }
}

// The lines of the jumps from one on.
fn add_sources(out: &mut [u8], at: usize, index: &[u8], nexts: &[usize], first: usize) -> usize
    requires { (at ≤ 1125899906842624) × (length nexts.now ≤ 65536) }
    ensures { AddsMany (length nexts.now) out.old at (sources_text index.now (places_on nexts.now (length nexts.now) first)) result out.new }
{
    let mut to = at;
    let mut place = first;
    for _left in (0..nexts.len()).rev() {
        to = add_row(out, to, b" #", image_references::source(index, place), 0, 0);
        place = image_references::next_threaded(nexts, place);
        if place == 0 {
            return to;
        }
    }
    to
}

// The rows of all numbers that are jumped to.
fn add_rows(out: &mut [u8], index: &[u8], firsts: &[usize], nexts: &[usize], marked: &[u8]) -> usize
    requires { (length firsts.now ≤ 65536) × (length nexts.now ≤ 65536) }
    ensures { Put out.old 0 (jumps_text index.now firsts.now nexts.now marked.now) result out.new }
{
    let mut from: usize = 0;
    let mut to: usize = 0;
    while let Some(row) = image_references::next_row(firsts, marked, from) {
        let colon = add_target(out, to, row.number, row.there);
        let end = add_sources(out, colon, index, nexts, row.first);
        to = add_text(out, end, b"\n");
        from = row.number + 1;
    }
    to
}

// A row for each number that is jumped to, of the jumps of an index, threaded, and with marks at the numbers that lines have.
pub fn lend_jumps(
    index: &[u8],
    firsts: &[usize],
    nexts: &[usize],
    marked: &[u8],
    out: &mut [u8],
) -> Result<usize, Refusal>
    requires { (length firsts.now ≤ 65536) × (length nexts.now ≤ 65536) }
    ensures { left result out.new ≡ into_buffer (done (jumps_text index.now firsts.now nexts.now marked.now)) out.old }
{
    let mut none = [0u8; 1];
    let needed = add_rows(&mut none, index, firsts, nexts, marked);
    if out.len() < needed {
        return Err(Refusal::NoRoom { needed });
    }
    Ok(add_rows(out, index, firsts, nexts, marked))
}
