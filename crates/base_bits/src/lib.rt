// Fields of bits in bytes, most significant bit first: a pen that writes them one behind the other, and reading one at a bit offset.
#![tactic(auto)]

ghost use Rattle.std.specs.Prelude.{◌≡◌, ◌+◌, ◌*◌, ◌/◌, ◌%◌, ◌^◌, ◌≤◌, ◌<◌, [], length, get_or};
ghost use Rattle.base_lent.specs.Stores.{Put};
ghost use Rattle.base_bits.specs.Bits.{bits_of, pack_from, bytes_bits, field_at};
ghost use Rattle.base_bits.specs.PenHelpers.{Sharp, Ready, drawn_bit, drawn};

// The byte that is being filled: its place, the value of its bits so far, and how many they are, at most seven.
#[derive(Clone, Copy)]
pub struct Pen {
    pub at: usize,
    pub value: u8,
    pub count: usize,
}

// The pen before the first bit of a buffer.
pub fn new_pen() -> Pen
    ensures { result ≡ record { at = 0; value = 0; count = 0 } }
{
    Pen {
        at: 0,
        value: 0,
        count: 0,
    }
}

// One bit more. A byte is stored once it is full.
fn put_bit(out: &mut [u8], pen: Pen, bit: u8) -> Pen
    requires { Sharp pen × (pen.at < length out.old) × (bit ≤ 1) }
    ensures { record { pen = result; out = out.new } ≡ drawn_bit out.old pen bit }
{
    let value = 2 * pen.value + bit;
    if pen.count == 7 {
        out[pen.at] = value;
        return Pen {
            at: pen.at + 1,
            value: 0,
            count: 0,
        };
    }
    Pen {
        value,
        count: pen.count + 1,
        ..pen
    }
}

// A field of so many bits.
pub fn put_field(out: &mut [u8], pen: Pen, width: usize, value: usize) -> Pen
    requires { (width ≤ 16) × Ready out.old pen (bits_of width value) }
    ensures { record { pen = result; out = out.new } ≡ drawn out.old pen (bits_of width value) }
{
    let mut pen = pen;
    for left in (0..width).rev() {
        pen = put_bit(out, pen, bit_of(value, left));
    }
    pen
}

// Zero bits to the end of the byte that is being filled; the place behind the last byte.
pub fn finish(out: &mut [u8], pen: Pen) -> usize
    requires { Ready out.old pen [] }
    ensures { Put out.old pen.at (pack_from pen.value pen.count []) result out.new }
{
    let mut pen = pen;
    while pen.count > 0 {
        pen = put_bit(out, pen, 0);
    }
    pen.at
}

// The bit worth two to the power k.
fn bit_of(value: usize, k: usize) -> u8
    requires { k < 64 }
    ensures { (result ≡ value / 2 ^ k % 2) × (result ≤ 1) }
{
    ((value >> k) % 2) as u8
}

// The bit at a bit offset.
fn bit_at(bytes: &[u8], at: usize) -> usize
    requires { at < 8 * length bytes.now }
    ensures { (result ≡ get_or (bytes_bits bytes.now) at 0) × (result ≤ 1) }
{
    usize::from((bytes[at / 8] >> (7 - at % 8)) % 2)
}

// The field of so many bits at a bit offset. The offset is low: for a field further on, a caller lends the bytes from near it on.
pub fn field_at(bytes: &[u8], at: usize, width: usize) -> usize
    requires { (at + width ≤ 8 * length bytes.now) × (width ≤ 16) × (at < 256) }
    ensures { result ≡ field_at bytes.now at width }
{
    let mut value: usize = 0;
    for k in 0..width {
        value = 2 * value + bit_at(bytes, at + k);
    }
    value
}
