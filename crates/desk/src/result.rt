// A result, written to the file that the program was given or to standard output, at once or in parts. Either way a file appears whole or
// not at all: what was there before stays as it was where anything fails. A name that is no UTF-8 is one that the library cannot give: what is
// whole then stays under the name beside it, and ./moldthatch gives it its own.
ghost use Rattle.std.specs.Prelude.{◌≤◌, length};

use crate::line::Line;
use crate::names::Way;
use crate::{names, saying};
use desk_calls::files;
use std::fs::File;
use std::io::{Print, Result, Write};

// What a result is written to: standard output, or a file of a name.
#[derive(Drop)]
pub enum Target<'a> {
    Output,
    Opened { file: File, name: &'a [u8] },
}

// What becomes of a file that is whole.
#[derive(Clone, Copy)]
enum Ending {
    // It stays under the name beside it.
    Left,
    // It takes its name.
    Placed,
    // The same, as one of several files: where it stays, its word's number stands behind the name beside it.
    PlacedAmong(usize),
}

// What the file is called, at the start of a buffer; nothing for standard output.
pub fn name<'a>(rt: &HostRuntime, buf: &'a mut [u8]) -> &'a [u8]
    ensures { length result.now ≤ length buf.old }
{
    if names::is_file(rt, names::OUT) {
        names::name(rt, names::OUT, buf)
    } else {
        &buf[..0]
    }
}

fn opened(rt: &HostRuntime, name: &[u8], part: &[u8]) -> Result<File> {
    match names::way_of(part) {
        Way::Beside => files::create(rt, part),
        Way::InPlace => files::open_append(rt, name),
        Way::Nowhere => Err(files::too_long()),
    }
}

// Opens what the result goes to: the name beside the file, or the file itself where that has no whole, as a device; what it holds by then stays in
// front. Nothing where it cannot be opened, which standard error tells.
pub fn begin<'a>(rt: &HostRuntime, name: &'a [u8]) -> Option<Target<'a>> {
    if !names::is_file(rt, names::OUT) {
        return Some(Target::Output);
    }
    let mut part = io::buffer();
    let file = opened(rt, name, names::name(rt, names::PART, &mut part))
        .inspect_err(|why| saying::fail(rt, name, *why))
        .ok()?;
    Some(Target::Opened { file, name })
}

// Writes a part; false where it cannot be written, which standard error tells.
pub fn write(rt: &HostRuntime, to: &Target, bytes: &[u8]) -> bool {
    match to {
        Target::Output => write_output(rt, bytes),
        Target::Opened { file, name } => write_file(rt, file, name, bytes),
    }
}

// Ends the result, with every part written or not; whether the file is there now, whole.
pub fn finish(rt: &HostRuntime, to: Target, written: bool) -> bool {
    end_with(rt, to, written, Ending::Placed)
}

// The same of one result of several, which belongs to the word at a place.
pub fn finish_among(rt: &HostRuntime, to: Target, written: bool, argument: usize) -> bool {
    end_with(rt, to, written, Ending::PlacedAmong(argument))
}

// Ends a result; whether it is there now, whole. What is new stays under the name beside the file: ./moldthatch gives it its own, which must not be
// taken by then.
fn end_with(rt: &HostRuntime, to: Target, written: bool, ending: Ending) -> bool {
    let Target::Opened { file, name } = to else {
        return written;
    };
    let mut buf = io::buffer();
    let part = names::name(rt, names::PART, &mut buf);
    match names::way_of(part) {
        Way::Beside => end_part(rt, part, name, written && is_kept(rt, file, name), ending),
        Way::InPlace => written,
        Way::Nowhere => false,
    }
}

fn end_part(rt: &HostRuntime, part: &[u8], name: &[u8], kept: bool, ending: Ending) -> bool {
    let done = kept && is_placed(rt, part, name, ending);
    if !done {
        remove(rt, part);
    }
    done
}

// Writes a result that is one part.
fn write_as(rt: &HostRuntime, bytes: &[u8], ending: Ending) -> bool {
    let mut buf = io::buffer();
    let Some(to) = begin(rt, name(rt, &mut buf)) else {
        return false;
    };
    let written = write(rt, &to, bytes);
    end_with(rt, to, written, ending)
}

pub fn write_whole(rt: &HostRuntime, bytes: &[u8]) -> bool {
    write_as(rt, bytes, Ending::Placed)
}

// The same of a file that never takes the place of another.
pub fn write_new(rt: &HostRuntime, bytes: &[u8]) -> bool {
    write_as(rt, bytes, Ending::Left)
}

// Writes to standard output; false where that fails, which standard error tells.
pub fn write_output(rt: &HostRuntime, bytes: &[u8]) -> bool {
    saying::is_done(rt, b"standard output", rt.stdout().write_all(bytes))
}

fn write_file(rt: &HostRuntime, mut file: &File, name: &[u8], bytes: &[u8]) -> bool {
    saying::is_done(rt, name, file.write_all(bytes))
}

// Some systems tell only here that what was written had no room. Where the file is closed, the library does not say whether that went well.
fn is_kept(rt: &HostRuntime, file: File, name: &[u8]) -> bool {
    saying::is_done(rt, name, file.sync_all())
}

// Gives what is whole its name, if the library can.
fn is_placed(rt: &HostRuntime, part: &[u8], name: &[u8], ending: Ending) -> bool {
    match ending {
        Ending::Left => true,
        _ if files::is_plain(name) => saying::is_done(rt, name, files::rename(rt, part, name)),
        Ending::Placed => true,
        Ending::PlacedAmong(argument) => is_numbered(rt, part, name, argument),
    }
}

// Puts a number behind the name that a file has meanwhile: another may be written under that.
fn is_numbered(rt: &HostRuntime, part: &[u8], name: &[u8], number: usize) -> bool {
    let mut to = Line::<4352>::new();
    to.put(part);
    to.put(b"-");
    to.put_decimal(number);
    saying::is_done(rt, name, files::rename(rt, part, to.bytes()))
}

// Takes away what was written of a file that is not to be.
fn remove(rt: &HostRuntime, part: &[u8]) {
    saying::is_done(rt, part, files::remove(rt, part));
}
