// A line index beside an image, and a report of its jumps with no target.
#![tactic(auto)]

ghost use Rattle.std.specs.Prelude.{◌≡◌, ◌+◌, ◌*◌, ◌≤◌, length, map};
ghost use Rattle.base_lent.specs.Lent.{into_buffer, left};
ghost use Rattle.base_lent.specs.Stores.{Room, Put};
ghost use Rattle.base_bits.specs.Bits.{pack_from};
ghost use Rattle.image_readers.specs.IndexLines.{index_line};
ghost use Rattle.image_index.specs.Index.{line_index, jump_report};
ghost use Rattle.base_bits.specs.PenHelpers.{Ready, drawn};
ghost use Rattle.image_index.specs.IndexHelpers.{Sound, found_from, low_jumps, low_targets, CountedIs, pair_bits, line_bits, target_bit, target_bits, jump_bits, index_bits, Faultless, NumbersMarked};

use base_bits::Pen;
use base_refusals::Refusal;
use image_readers::links;

// Stores the index of an image at the start of a buffer, and answers how long it is.
pub fn write_index(image: &[u8], out: &mut [u8]) -> Result<usize, Refusal>
    ensures { left result out.new ≡ into_buffer (line_index image.now) out.old }
{
    let overview = links::check(image)?;
    index_lines(image, out, overview.lines)
}

// The same for an image without a fault, of so many lines.
fn index_lines(image: &[u8], out: &mut [u8], lines: usize) -> Result<usize, Refusal>
    requires { Faultless image.now lines }
    ensures { left result out.new ≡ into_buffer (line_index image.now) out.old }
{
    if lines > 8191 {
        return Err(Refusal::TooManyLines);
    }
    let jumps = count_jumps(image, &[])?;
    let needed = (23 + 32 * lines + 29 * jumps) / 8;
    if needed > out.len() {
        return Err(Refusal::NoRoom { needed });
    }
    Ok(put_index(out, image, lines))
}

// Stores the index in a buffer that has the room. No number is marked.
fn put_index(out: &mut [u8], image: &[u8], lines: usize) -> usize
    requires { Faultless image.now lines × Room out.old 0 (pack_from 0 0 (index_bits image.now lines)) }
    ensures { Put out.old 0 (pack_from 0 0 (index_bits image.now lines)) result out.new }
{
    let first = base_bits::put_field(out, base_bits::new_pen(), 16, lines);
    let second = put_lines(out, first, image);
    let third = put_jumps(out, second, image, &[]);
    base_bits::finish(out, third)
}

// Stores the report on an image's jumps with no target at the start of a buffer, and answers how long it is.
pub fn write_report(image: &[u8], out: &mut [u8]) -> Result<usize, Refusal>
    ensures { left result out.new ≡ into_buffer (jump_report image.now) out.old }
{
    let overview = links::check(image)?;
    let mut marked = [0u8; 65536];
    image_marks::mark_numbers(image, &mut marked);
    report_lines(image, out, overview.lines, &marked)
}

// The report on an image without a fault, of so many lines, whose numbers are marked.
fn report_lines(image: &[u8], out: &mut [u8], lines: usize, marked: &[u8]) -> Result<usize, Refusal>
    requires { Faultless image.now lines × NumbersMarked (map index_line (found_from image.now 2)) marked.now }
    ensures { left result out.new ≡ into_buffer (jump_report image.now) out.old }
{
    if lines > 8191 {
        return Err(Refusal::TooManyLines);
    }
    let jumps = count_jumps(image, marked)?;
    let needed = (7 + 29 * jumps) / 8;
    if needed > out.len() {
        return Err(Refusal::NoRoom { needed });
    }
    Ok(put_report(out, image, marked))
}

// Stores the report in a buffer that has the room.
fn put_report(out: &mut [u8], image: &[u8], marked: &[u8]) -> usize
    requires { Sound image.now 2 × (2 ≤ length image.now) × Room out.old 0 (pack_from 0 0 (jump_bits marked.now image.now 0 (found_from image.now 2))) }
    ensures { Put out.old 0 (pack_from 0 0 (jump_bits marked.now image.now 0 (found_from image.now 2))) result out.new }
{
    let pen = put_jumps(out, base_bits::new_pen(), image, marked);
    base_bits::finish(out, pen)
}

// The jumps of a body to numbers that are not marked, behind n of them.
fn count_body(body: &[u8], marked: &[u8], n: usize) -> Result<usize, Refusal>
    requires { (n ≤ 4294967296) × (length body.now ≤ 1048576) }
    ensures { CountedIs marked.now n (low_jumps body.now) (n + 2 * length body.now) result }
{
    let mut cursor = image_jumps::first();
    let mut n = n;
    while let Some(jump) = image_jumps::next_jump(body, cursor) {
        if jump.target > 65535 {
            return Err(Refusal::TargetTooHigh);
        }
        if !image_marks::has_mark(marked, jump.target) {
            n += 1;
        }
        cursor = jump.cursor;
    }
    Ok(n)
}

// The jumps of an image without a fault, to numbers that are not marked.
fn count_jumps(image: &[u8], marked: &[u8]) -> Result<usize, Refusal>
    requires { Sound image.now 2 × (2 ≤ length image.now) × (length image.now ≤ 1048576) }
    ensures { CountedIs marked.now 0 (low_targets image.now (found_from image.now 2)) 2097152 result }
{
    let mut offset: usize = 2;
    let mut n: usize = 0;
    // An image without a fault is refused nowhere, here and below.
    while let Ok(Some(line)) = links::step(image, offset) {
        n = count_body(&image[line.from..line.to], marked, n)?;
        offset = line.next;
    }
    Ok(n)
}

// Two fields, the second of 16 bits.
fn put_pair(out: &mut [u8], pen: Pen, width: usize, first: usize, second: usize) -> Pen
    requires { (width ≤ 16) × Ready out.old pen (pair_bits width first second) }
    ensures { record { pen = result; out = out.new } ≡ drawn out.old pen (pair_bits width first second) }
{
    let behind = base_bits::put_field(out, pen, width, first);
    base_bits::put_field(out, behind, 16, second)
}

// The lines of an image without a fault.
fn put_lines(out: &mut [u8], pen: Pen, image: &[u8]) -> Pen
    requires { Sound image.now 2 × Ready out.old pen (line_bits (found_from image.now 2)) }
    ensures { record { pen = result; out = out.new } ≡ drawn out.old pen (line_bits (found_from image.now 2)) }
{
    let mut pen = pen;
    let mut offset: usize = 2;
    while let Ok(Some(line)) = links::step(image, offset) {
        pen = put_pair(out, pen, 16, usize::from(line.number), line.from - 4);
        offset = line.next;
    }
    pen
}

// A jump, unless its target is marked.
fn put_jump(out: &mut [u8], pen: Pen, place: usize, target: usize, marked: &[u8]) -> Pen
    requires { Ready out.old pen (target_bit marked.now place target) }
    ensures { record { pen = result; out = out.new } ≡ drawn out.old pen (target_bit marked.now place target) }
{
    if image_marks::has_mark(marked, target) {
        pen
    } else {
        put_pair(out, pen, 13, place, target)
    }
}

// The jumps of a body.
fn put_body(out: &mut [u8], pen: Pen, place: usize, body: &[u8], marked: &[u8]) -> Pen
    requires { Ready out.old pen (target_bits marked.now place (low_jumps body.now)) }
    ensures { record { pen = result; out = out.new } ≡ drawn out.old pen (target_bits marked.now place (low_jumps body.now)) }
{
    let mut pen = pen;
    let mut cursor = image_jumps::first();
    while let Some(jump) = image_jumps::next_jump(body, cursor) {
        pen = put_jump(out, pen, place, jump.target, marked);
        cursor = jump.cursor;
    }
    pen
}

// The jumps of an image without a fault.
fn put_jumps(out: &mut [u8], pen: Pen, image: &[u8], marked: &[u8]) -> Pen
    requires { Sound image.now 2 × (2 ≤ length image.now) × Ready out.old pen (jump_bits marked.now image.now 0 (found_from image.now 2)) }
    ensures { record { pen = result; out = out.new } ≡ drawn out.old pen (jump_bits marked.now image.now 0 (found_from image.now 2)) }
{
    let mut pen = pen;
    let mut offset: usize = 2;
    let mut place: usize = 0;
    while let Ok(Some(line)) = links::step(image, offset) {
        place += 1;
        pen = put_body(out, pen, place, &image[line.from..line.to], marked);
        offset = line.next;
    }
    pen
}
