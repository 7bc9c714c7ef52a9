// Words and numbers stored in a lent buffer from a place on, as many as fit; each such call answers the place behind them. And whole texts: all
// of a text is stored, or nothing, and the room that it needs is told.
#![tactic(auto)]

ghost use Rattle.std.specs.Prelude.{◌≡◌, ◌+◌, ◌≤◌, ◌<◌, [], ◌∷◌, length, drop};
ghost use Rattle.base_steps.specs.Decimal.{decimal};
ghost use Rattle.base_refusals.specs.Answer.{done};
ghost use Rattle.base_lent.specs.Lent.{into_buffer, left};
ghost use Rattle.say_put.specs.Clipped.{Clipped};
ghost use Rattle.say_put.specs.Rows.{filled, row_text};
ghost use Rattle.say_put.specs.SpeltHelpers.{Spelt};

use base_refusals::Refusal;

// One byte is put by itself: a copy of a size that is not known takes a call.
pub fn put_text(out: &mut [u8], at: usize, text: &[u8]) -> usize
    requires { at ≤ length out.old }
    ensures { Clipped out.old at text.now result out.new }
{
    if text.len() == 1 {
        return put_one(out, at, text[0]);
    }
    let count = text.len().min(out.len() - at);
    out[at..at + count].copy_from_slice(&text[..count]);
    at + count
}

// Puts one byte, where there is room.
fn put_one(out: &mut [u8], at: usize, b: u8) -> usize
    requires { at ≤ length out.old }
    ensures { Clipped out.old at (b ∷ []) result out.new }
{
    if at >= out.len() {
        return at;
    }
    out[at] = b;
    at + 1
}

fn digit(n: usize) -> u8
    requires { n < 10 }
    ensures { result ≡ 48 + n }
{
    b'0' + n as u8
}

// Puts a number's digits at the end of an array, and answers where they begin.
fn decimal(n: usize, digits: &mut [u8]) -> usize
    requires { 20 ≡ length digits.old }
    ensures { Spelt (decimal n) result digits.new }
{
    let mut rest = n;
    for i in (1..20).rev() {
        digits[i] = digit(rest % 10);
        if rest < 10 {
            return i;
        }
        rest /= 10;
    }
    digits[0] = digit(rest % 10);
    0
}

pub fn put_decimal(out: &mut [u8], at: usize, n: usize) -> usize
    requires { at ≤ length out.old }
    ensures { Clipped out.old at (decimal n) result out.new }
{
    let mut digits = [0u8; 20];
    let from = decimal(n, &mut digits);
    put_text(out, at, &digits[from..])
}

// Stores a row from a place on, up to its end, with three numbers for its marks, and answers the place behind it.
pub fn fill(
    out: &mut [u8],
    at: usize,
    row: &[u8],
    first: usize,
    second: usize,
    third: usize,
) -> usize
    requires { at ≤ length out.old }
    ensures { Clipped out.old at (filled row.now first second third) result out.new }
{
    let mut to = at;
    let mut value = first;
    let mut later = second;
    let mut last = third;
    for b in row {
        if *b == b'\n' {
            return to;
        }
        if *b == b'#' {
            to = put_decimal(out, to, value);
            value = later;
            later = last;
            last = 0;
        } else {
            to = put_text(out, to, &[*b]);
        }
    }
    to
}

// A whole text in a lent buffer, from its start on; where there is no room, the buffer is as it was.
pub fn lend_text(text: &[u8], out: &mut [u8]) -> Result<usize, Refusal>
    ensures { left result out.new ≡ into_buffer (done text.now) out.old }
{
    let needed = text.len();
    if out.len() < needed {
        return Err(Refusal::NoRoom { needed });
    }
    Ok(put_text(out, 0, text))
}

// The same of a row with three numbers for its marks, behind the words that stand in front of it.
pub fn lend_row(
    front: &[u8],
    row: &[u8],
    first: usize,
    second: usize,
    third: usize,
    out: &mut [u8],
) -> Result<usize, Refusal>
    requires { (length front.now ≤ 4352) × (length row.now ≤ 128) }
    ensures { left result out.new ≡ into_buffer (done (row_text front.now row.now first second third)) out.old }
{
    // A number has at most 20 digits.
    let mut line = [0u8; 8192];
    let from = put_text(&mut line, 0, front);
    let to = fill(&mut line, from, row, first, second, third);
    let end = put_text(&mut line, to, b"\n");
    lend_text(&line[..end], out)
}
