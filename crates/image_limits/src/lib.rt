// What a machine takes: line numbers, bodies, and images that fit its BASIC memory.
#![tactic(auto)]

ghost use Rattle.std.specs.Prelude.{◌≡◌};
ghost use Rattle.image_limits.specs.Limits.{c64, is_too_high, is_not_ascending, is_bad_length, in_basic_memory};

// The limits of a machine: its highest line number, its longest body, and the first and the last address of its BASIC memory.
#[derive(Clone, Copy)]
pub struct Limits {
    pub highest: u16,
    pub longest: usize,
    pub first: u16,
    pub last: u16,
}

pub fn commodore_64() -> Limits
    ensures { result ≡ c64 }
{
    Limits {
        highest: 63_999,
        longest: 250,
        first: 0x0801,
        last: 0x9FFF,
    }
}

pub fn is_too_high(machine: Limits, number: u16) -> bool
    ensures { result ≡ is_too_high machine number }
{
    number > machine.highest
}

// Whether a number is below the least that may stand there: behind a line that is the next above its number.
pub fn is_not_ascending(least: usize, number: u16) -> bool
    ensures { result ≡ is_not_ascending least number }
{
    usize::from(number) < least
}

// Whether a body of so many bytes is none, or is too long.
pub fn is_bad_length(machine: Limits, length: usize) -> bool
    ensures { result ≡ is_bad_length machine length }
{
    length < 1 || length > machine.longest
}

// Whether an image of so many bytes, its load address among them, lies in BASIC memory.
pub fn is_in_basic_memory(machine: Limits, load: u16, length: usize) -> bool
    ensures { result ≡ in_basic_memory machine load length }
{
    let end = usize::from(machine.last) + 3;
    load >= machine.first && length <= end && usize::from(load) + length <= end
}
