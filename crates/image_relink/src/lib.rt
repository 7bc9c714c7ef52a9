// What the machine makes of a program's links after loading it: its ROM's routine at A533, over an image that is loaded at its own address.
#![tactic(auto)]

ghost use Rattle.std.specs.Prelude.{◌≡◌, ◌+◌, ◌≤◌, ◌<◌, length};
ghost use Rattle.image_relink.specs.Relinking.{come_round, in_memory, zero_sought, stored, relink_step, relinked_answer, relinking};

use base_refusals::Refusal;

// An image has at most this many bytes.
const LONGEST: usize = 1048576;

// What the search for a line's 00 comes to.
#[derive(Clone, Copy)]
pub enum Zero {
    // The count of one byte at which the 00 stands.
    At(usize),
    // It looks at a byte that is not the image's.
    Outside,
    // It comes round, and looks at the same 256 bytes again and again.
    Nowhere,
}

// What becomes of a line.
#[derive(Clone, Copy)]
pub enum Passed {
    End,
    // Its link stays, and the routine goes on at an offset.
    Kept(usize),
    // Its link becomes another.
    Changed(u16),
    // What stands behind the image in memory is unknown.
    Outside,
    Endless,
}

// What becomes of a program.
#[derive(Clone, Copy)]
pub enum Relinked {
    // Every link is as it was.
    Same,
    // The first line whose link is changed, and its new link.
    Changed { offset: usize, link: u16 },
    // The routine leaves the image: what it does then is unknown.
    Leaves,
    // The routine never ends.
    Endless,
}

// Follows the routine through an image up to the first link that it changes.
pub fn relink(image: &[u8]) -> Result<Relinked, Refusal>
    ensures { relinked_answer result ≡ relinking image.now }
{
    let length = image.len();
    if length > LONGEST {
        return Err(Refusal::ImageTooLong { length });
    }
    if length < 2 {
        return Err(Refusal::TooShort);
    }
    let mut offset: usize = 2;
    loop {
        match pass(image, offset) {
            Passed::End => {
                return Ok(Relinked::Same);
            }
            Passed::Kept(next) => {
                offset = next;
            }
            Passed::Changed(link) => {
                return Ok(Relinked::Changed { offset, link });
            }
            Passed::Outside => {
                return Ok(Relinked::Leaves);
            }
            Passed::Endless => {
                return Ok(Relinked::Endless);
            }
        }
    }
}

// The line at an offset.
fn pass(image: &[u8], offset: usize) -> Passed
    requires { (2 ≤ length image.now) × (2 ≤ offset) × (offset ≤ 65537) }
    ensures { result ≡ relink_step image.now offset }
{
    let high = come_round(offset + 1);
    if !is_in_memory(image, high) {
        return Passed::Outside;
    }
    if image[high] == 0 {
        return Passed::End;
    }
    match zero_behind(image, offset) {
        Zero::At(y) => store(image, offset, high, (y + 1) % 256),
        Zero::Outside => Passed::Outside,
        Zero::Nowhere => Passed::Endless,
    }
}

// Stores the new link of the line at an offset, whose high byte stands at `high`. It leads so far behind the line's first byte.
fn store(image: &[u8], offset: usize, high: usize, count: usize) -> Passed
    requires { (2 ≤ length image.now) × (2 ≤ offset) × (offset ≤ 65537) × (high ≡ come_round (offset + 1)) × (high < length image.now) × (count < 256) }
    ensures { result ≡ stored image.now offset count }
{
    let low = come_round(offset);
    if !is_in_memory(image, low) {
        return Passed::Outside;
    }
    let sum = usize::from(image_bytes::low_first_at(image, 0)) + offset - 2 + count;
    let link = (sum % 65536) as u16;
    if link != image_bytes::low_first(image[low], image[high]) {
        return Passed::Changed(link);
    }
    if count == 0 {
        return Passed::Endless;
    }
    Passed::Kept(offset + count)
}

// The search for the 00 of the line at an offset.
fn zero_behind(image: &[u8], offset: usize) -> Zero
    requires { (2 ≤ offset) × (offset ≤ 65537) }
    ensures { result ≡ zero_sought image.now offset 256 5 }
{
    // The count is one byte, and comes round from 255 to 0.
    for i in 5..261 {
        let y = i % 256;
        let at = come_round(offset + y);
        if !is_in_memory(image, at) {
            return Zero::Outside;
        }
        if image[at] == 0 {
            return Zero::At(y);
        }
    }
    Zero::Nowhere
}

// The offset of the byte of memory that an offset leads to: memory comes round behind 65,536 bytes, to the image's first.
fn come_round(offset: usize) -> usize
    requires { 2 ≤ offset }
    ensures { result ≡ come_round offset }
{
    2 + (offset - 2) % 65536
}

// Whether the byte at an offset is the image's, and the image fits into memory, which has room for 65,536 bytes behind the load address.
fn is_in_memory(image: &[u8], offset: usize) -> bool
    ensures { result ≡ in_memory image.now offset }
{
    offset < image.len() && image.len() < 65539
}
