// Files by their names, which are rows of bytes. The library opens what is named in UTF-8. For any other name ./moldthatch makes a link with a plain
// name, in a folder that it tells by the variable MOLDTHATCH_PLAIN: two letters for each byte, a to p for 0 to 15, a hundred bytes to a folder, and a dot
// behind all.
ghost use Rattle.std.specs.Prelude.{◌≤◌, length};
ghost use Rattle.io.specs.Counts.{IsPrefixLen};

use std::env::Env;
use std::fs::{File, OpenOptions};
use std::io::{Error, ErrorKind};
use std::{fs, io};

// The system's number for a name that is too long.
const TOO_LONG: i32 = 36;

// Why a name is refused that does not fit.
pub fn too_long() -> Error {
    Error::from_raw_os_error(TOO_LONG)
}

// Whether the library can give a file this name.
pub fn is_plain(name: &[u8]) -> bool {
    str::from_utf8(name).is_ok()
}

// Puts a byte at a place, if there is room; the place behind it.
fn put(out: &mut [u8], at: usize, b: u8) -> usize {
    if at >= out.len() {
        return at;
    }
    out[at] = b;
    at + 1
}

// Two letters for a byte.
fn put_letters(out: &mut [u8], at: usize, b: u8) -> usize {
    let to = put(out, at, b'a' + b / 16);
    put(out, to, b'a' + b % 16)
}

// A plain name for any other, behind what stands in a buffer, which is full where it has no room.
fn put_plain(out: &mut [u8], from: usize, name: &[u8]) -> usize {
    let mut at = from;
    for (i, b) in name.iter().enumerate() {
        if i % 100 == 0 {
            at = put(out, at, b'/');
        }
        at = put_letters(out, at, *b);
    }
    put(out, at, b'.')
}

// A name that the library can give a file.
fn plain(name: &[u8]) -> io::Result<&str> {
    str::from_utf8(name).or(Err(Error::from(ErrorKind::InvalidFilename)))
}

// The path of a link, whose folder is told by a variable.
fn link_path(rt: &HostRuntime, name: &[u8], room: &mut [u8]) -> io::Result<usize> {
    match rt.var("MOLDTHATCH_PLAIN", room) {
        Ok(from) => Ok(put_plain(room, from, name)),
        Err(_) => Err(Error::from(ErrorKind::InvalidFilename)),
    }
}

// The path that stands for a name, at the start of a buffer; as much of it as has room.
fn path(rt: &HostRuntime, name: &[u8], room: &mut [u8]) -> io::Result<usize> {
    if !is_plain(name) {
        return link_path(rt, name, room);
    }
    let fits = name.len().min(room.len());
    room[..fits].copy_from_slice(&name[..fits]);
    Ok(name.len())
}

// What stands at the start of a buffer, which has to be longer: what fills it may have been cut.
fn text_of(room: &[u8], length: usize) -> io::Result<&str> {
    if length >= room.len() {
        return Err(too_long());
    }
    plain(&room[..length])
}

fn open(rt: &HostRuntime, name: &[u8], how: &OpenOptions) -> io::Result<File> {
    let mut room = [0u8; 4097];
    let length = path(rt, name, &mut room)?;
    how.open(rt, text_of(&room, length)?)
}

pub fn open_read(rt: &HostRuntime, name: &[u8]) -> io::Result<File> {
    let mut how = OpenOptions::new();
    how.read(true);
    open(rt, name, &how)
}

// A new file; none takes the place of one that is there.
pub fn create(rt: &HostRuntime, name: &[u8]) -> io::Result<File> {
    let mut how = OpenOptions::new();
    how.write(true).create_new(true);
    open(rt, name, &how)
}

// Each write lands behind what stands there.
pub fn open_append(rt: &HostRuntime, name: &[u8]) -> io::Result<File> {
    let mut how = OpenOptions::new();
    how.append(true);
    open(rt, name, &how)
}

// Both names have to be plain: what a link leads to would keep its own.
pub fn rename(rt: &HostRuntime, from: &[u8], to: &[u8]) -> io::Result<()> {
    fs::rename(rt, plain(from)?, plain(to)?)
}

pub fn remove(rt: &HostRuntime, name: &[u8]) -> io::Result<()> {
    fs::remove_file(rt, plain(name)?)
}
