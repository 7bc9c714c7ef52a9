// Any bytes as a line index: an entry at a place, and the first line with a number.
#![tactic(auto)]

ghost use Rattle.std.specs.Prelude.{◌≡◌, ◌+◌, ◌-◌, ◌*◌, ◌/◌, ◌≤◌, ◌<◌, min, length};
ghost use Rattle.base_bits.specs.Bits.{field_at};
ghost use Rattle.image_index_entries.specs.Entries.{count_held, pairs_read, line_pairs, jump_pairs, entry_in, entry_of, look_up};

// An entry of an index, or the place of a line and its link's offset.
#[derive(Clone, Copy)]
pub struct Numbers {
    pub first: usize,
    pub second: usize,
}

#[derive(Clone, Copy)]
pub enum Kind {
    Line,
    Jump,
}

// The line or jump at a place from 1.
pub fn entry(kind: Kind, place: usize, index: &[u8]) -> Option<Numbers>
    ensures { result ≡ entry_of kind place index.now }
{
    match kind {
        Kind::Line => line_at(place, index),
        Kind::Jump => jump_at(place, index),
    }
}

// The first line with a number: its place from 1, and its link's offset.
pub fn look_up(number: usize, index: &[u8]) -> Option<Numbers>
    ensures { result ≡ look_up number index.now }
{
    let held = lines_held(index);
    for before in 0..held {
        if word_at(index, 2 + 4 * before) == number {
            return Some(Numbers {
                first: before + 1,
                second: word_at(index, 4 + 4 * before),
            });
        }
    }
    None
}

// A field of 16 bits that starts with a byte. By bytes and not by bits: a look-up reads one for each line.
fn word_at(index: &[u8], at: usize) -> usize
    requires { at + 2 ≤ length index.now }
    ensures { (result ≡ field_at index.now (8 * at) 16) × (result ≤ 65535) }
{
    usize::from(u16::from_be_bytes([index[at], index[at + 1]]))
}

// How many lines lie whole within the bytes.
fn lines_held(index: &[u8]) -> usize
    ensures { (result ≡ min (count_held index.now) ((8 * length index.now - 16) / 32)) × (4 * result ≤ length index.now - 2) × (result ≤ 65535) }
{
    if index.len() < 2 {
        return 0;
    }
    word_at(index, 0).min((index.len() - 2) / 4)
}

// The line at a place from 1.
fn line_at(place: usize, index: &[u8]) -> Option<Numbers>
    ensures { result ≡ entry_in (line_pairs index.now) place }
{
    if place == 0 || place > lines_held(index) {
        return None;
    }
    Some(Numbers {
        first: word_at(index, 4 * place - 2),
        second: word_at(index, 4 * place),
    })
}

// The jump at a place from 1.
fn jump_at(place: usize, index: &[u8]) -> Option<Numbers>
    ensures { result ≡ entry_in (jump_pairs index.now) place }
{
    if index.len() < 2 {
        return None;
    }
    let from = 2 + 4 * word_at(index, 0);
    if from > index.len() {
        return None;
    }
    packed_jump(&index[from..], place)
}

// The same among jumps alone. 29 bytes hold eight of them.
fn packed_jump(jumps: &[u8], place: usize) -> Option<Numbers>
    ensures { result ≡ entry_in (pairs_read 13 jumps.now 0 (8 * length jumps.now / 29)) place }
{
    let held = 8 * (jumps.len() / 29) + 8 * (jumps.len() % 29) / 29;
    if place == 0 || place > held {
        return None;
    }
    let from = 29 * ((place - 1) / 8);
    let at = 29 * ((place - 1) % 8);
    Some(Numbers {
        first: base_bits::field_at(&jumps[from..], at, 13),
        second: base_bits::field_at(&jumps[from..], at + 13, 16),
    })
}
