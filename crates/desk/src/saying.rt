// What is said to a person. Every sentence of a program goes through here: whatever it has of a text, an image, a disk or a name is shown by crate
// `say_shown`, and the only control in it is its line's end.
ghost use Rattle.std.specs.Prelude.{◌≡◌, is_ok};

use crate::line::Line;
use desk_calls::reasons;
use std::io::{Error, Print, Result};

// A line without its end, if it has one.
fn words_of(line: &[u8]) -> &[u8] {
    line.strip_suffix(b"\n".as_slice()).unwrap_or(line)
}

// Writes a line, shown.
fn write_shown<P: Print>(to: &P, line: &[u8]) -> Result<()> {
    // No sentence has more than 9,216 bytes, and no byte is shown by more than five.
    let mut shown = Line::<46_592>::new();
    shown.put_line(words_of(line));
    to.write_all(shown.bytes())
}

// Says a sentence on standard error. Where that fails, the status tells.
pub fn tell(rt: &HostRuntime, line: &[u8]) -> bool {
    write_shown(&rt.stderr(), line).is_ok()
}

// Says a sentence on standard output. Where that fails, standard error tells.
pub fn say(rt: &HostRuntime, line: &[u8]) -> bool {
    is_done(rt, b"standard output", write_shown(&rt.stdout(), line))
}

// Whether a call of the system succeeded; where it did not, standard error tells.
pub fn is_done(rt: &HostRuntime, name: &[u8], came: Result<()>) -> bool
    ensures { result ≡ is_ok came }
{
    came.inspect_err(|why| fail(rt, name, *why)).is_ok()
}

// Says on standard error why a call of the system failed, behind the name of what it was called for.
pub fn fail(rt: &HostRuntime, name: &[u8], why: Error) {
    let mut reason = [0u8; 256];
    // No name has more than 4,096 bytes, and no byte is shown by more than five.
    let mut line = Line::<20_864>::new();
    line.put_shown(name);
    line.put(b": ");
    line.put(reasons::put(why, &mut reason));
    line.put(b"\n");
    let _ = rt.stderr().write_all(line.bytes());
}
