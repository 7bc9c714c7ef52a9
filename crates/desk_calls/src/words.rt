// The words that a program was given, as their bytes: no word has to be text.
ghost use Rattle.std.specs.Prelude.{◌≤◌, length};

use std::env::{Env, FillError};

// Whether there is a word at a place.
pub fn is_there(rt: &HostRuntime, place: usize) -> bool {
    let mut room = [0u8; 1];
    matches!(rt.arg(place, &mut room), Ok(_) | Err(FillError::TooLong))
}

// How many words there are, the program's own name among them.
pub fn count(rt: &HostRuntime) -> usize {
    (0..usize::MAX)
        .take_while(|place| is_there(rt, *place))
        .count()
}

// The word itself, which stands at the start of a buffer; an empty one where it is missing or has no room.
pub fn word<'a>(rt: &HostRuntime, place: usize, buf: &'a mut [u8]) -> &'a [u8]
    ensures { length result.now ≤ length buf.old }
{
    let length = rt.arg(place, buf).unwrap_or(0);
    &buf[..length]
}
