// The names that a program was given.
ghost use Rattle.std.specs.Prelude.{◌≡◌, ◌+◌, ◌≤◌, length};
ghost use Rattle.desk.specs.WayHelpers.{way_of};

use desk_calls::words;

pub const IN: usize = 1;

pub const OUT: usize = 2;

pub const PART: usize = 3;

// How OUT is written, as the word PART says.
#[derive(Clone, Copy)]
pub enum Way {
    // Under that name first.
    Beside,
    // As it is: a device, a pipe.
    InPlace,
    // No name is there, or it is longer than a name may be.
    Nowhere,
}

// The first of the program's own words.
pub const WORDS: usize = 4;

// Whether the program was given names at all.
pub fn given(rt: &HostRuntime) -> bool {
    words::is_there(rt, PART)
}

// What the word PART says. An empty word, as a name is read that does not fit, is never one for writing in place.
pub fn way_of(part: &[u8]) -> Way
    ensures { result ≡ way_of part.now }
{
    match part {
        [] => Way::Nowhere,
        [b'-'] => Way::InPlace,
        _ => Way::Beside,
    }
}

// Whether an argument names a file, and not standard input or output.
pub fn is_file(rt: &HostRuntime, argument: usize) -> bool {
    let mut word = io::buffer();
    given(rt) && name(rt, argument, &mut word) != b"-".as_slice()
}

// The name itself, which stands at the start of a buffer; an empty one where it has no room.
pub fn name<'a>(rt: &HostRuntime, argument: usize, buf: &'a mut [u8]) -> &'a [u8]
    ensures { length result.now ≤ length buf.old }
{
    words::word(rt, argument, buf)
}

// What the input is called in a sentence.
pub fn input_name<'a>(rt: &HostRuntime, buf: &'a mut [u8]) -> &'a [u8]
    ensures { length result.now ≤ length buf.old + 14 }
{
    if is_file(rt, IN) {
        name(rt, IN, buf)
    } else {
        b"standard input"
    }
}
