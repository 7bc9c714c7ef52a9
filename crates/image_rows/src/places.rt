// Where the lines of an image stand: a row for each, its number, its address and, where it is known, the text line that it comes from, with tabs
// between.
ghost use Rattle.std.specs.Prelude.{◌≡◌, ◌≤◌, length, drop};
ghost use Rattle.base_lent.specs.Lent.{into_buffer, left};
ghost use Rattle.image_rows.specs.Places.{place_text, places_shown};
ghost use Rattle.image_rows.specs.PartHelpers.{Adds, AddsTwo, Stores, IsText};

use crate::parts::{add_row, add_text};
use base_refusals::Refusal;
use image_readers::{By, Line};

fn add_numbers(out: &mut [u8], at: usize, line: Line, origins: &[usize], before: usize) -> usize
    requires { at ≤ 1099511627776 }
    ensures { Adds out.old at (place_text line (drop before origins.now)) result out.new }
{
    let number = line.number as usize;
    if before < origins.len() {
        add_row(out, at, b"#\t#\t#", number, line.address, origins[before])
    } else {
        add_row(out, at, b"#\t#", number, line.address, 0)
    }
}

// The row of a line behind so many.
fn add_place(out: &mut [u8], at: usize, line: Line, origins: &[usize], before: usize) -> usize
    requires { at ≤ 1099511625216 }
    ensures { AddsTwo out.old at (place_text line (drop before origins.now)) result out.new }
{
    let end = add_numbers(out, at, line, origins, before);
    add_text(out, end, b"\n")
}

fn add_places(out: &mut [u8], image: &[u8], by: By, origins: &[usize]) -> usize
    ensures { Stores (places_shown by image.now origins.now) out.old result out.new }
{
    let mut offset: usize = 2;
    let mut before: usize = 0;
    let mut to: usize = 0;
    // The rows end at a fault as at the image's end.
    while let Ok(Some(line)) = image_readers::step_by(image, offset, by) {
        to = add_place(out, to, line, origins, before);
        before += 1;
        offset = line.next;
    }
    to
}

fn lend_checked(image: &[u8], by: By, origins: &[usize], out: &mut [u8]) -> Result<usize, Refusal>
    requires { IsText (places_shown by image.now origins.now) }
    ensures { left result out.new ≡ into_buffer (places_shown by image.now origins.now) out.old }
{
    let mut none = [0u8; 1];
    let needed = add_places(&mut none, image, by, origins);
    if out.len() < needed {
        return Err(Refusal::NoRoom { needed });
    }
    Ok(add_places(out, image, by, origins))
}

// The rows of an image's lines; origins are the text lines of the first so many.
pub fn lend_places(
    image: &[u8],
    by: By,
    origins: &[usize],
    out: &mut [u8],
) -> Result<usize, Refusal>
    ensures { left result out.new ≡ into_buffer (places_shown by image.now origins.now) out.old }
{
    image_readers::check_by(image, by)?;
    lend_checked(image, by, origins, out)
}
