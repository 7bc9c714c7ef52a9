// What stands in an image's bytes, before any line is known: numbers of two bytes, addresses, where a link leads, the next 00. Both
// readers are made of these.
#![tactic(auto)]

ghost use Rattle.std.specs.Prelude.{◌≡◌, ◌+◌, ◌*◌, ◌≤◌, ◌<◌, length};
ghost use Rattle.image_bytes.specs.ImageBytes.{low_first_at, address_at, target_at, before_zero, body_end};

// The address in memory of what stands at an offset: the load address plus the offset less 2, never below 0.
pub fn address_at(image: &[u8], offset: usize) -> usize
    requires { (offset + 4 ≤ length image.now) × (length image.now ≤ 1048576) }
    ensures { result ≡ address_at image.now offset }
{
    let sum = usize::from(low_first_at(image, 0)) + offset;
    sum.saturating_sub(2)
}

// The offset that the link at an offset leads to; 0, which ends no line, where the link lies below the load address.
pub fn target_at(image: &[u8], offset: usize) -> usize
    requires { offset + 2 ≤ length image.now }
    ensures { result ≡ target_at image.now offset }
{
    let behind = 2 + usize::from(low_first_at(image, offset));
    behind.saturating_sub(usize::from(low_first_at(image, 0)))
}

// The offset of the first 00 behind the link and number at an offset, or the image's end.
pub fn body_end(image: &[u8], offset: usize) -> usize
    requires { (offset + 4 ≤ length image.now) × (length image.now ≤ 1048576) }
    ensures { result ≡ body_end image.now offset }
{
    let from = offset + 4;
    from + before_zero(&image[from..])
}

// How many bytes stand before the first 00; all of them where there is none.
pub fn before_zero(bytes: &[u8]) -> usize
    ensures { result ≡ before_zero bytes.now }
{
    bytes.iter().take_while(|b| **b != 0).count()
}

// The number in two bytes at an offset, low byte first.
pub fn low_first_at(image: &[u8], offset: usize) -> u16
    requires { offset + 1 < length image.now }
    ensures { result ≡ low_first_at image.now offset }
{
    low_first(image[offset], image[offset + 1])
}

pub fn low_first(low: u8, high: u8) -> u16
    ensures { result ≡ low + 256 * high }
{
    u16::from_le_bytes([low, high])
}
