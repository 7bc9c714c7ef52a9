// The sentence that says why a disk is not in order.
#![tactic(auto)]

ghost use Rattle.std.specs.Prelude.{◌≡◌, ◌+◌, ◌≤◌, ◌<◌, length, get_or};
ghost use Rattle.list_bytes.specs.ByteTexts.{hex_byte};
ghost use Rattle.disk_rules.specs.Places.{track_of, sector_of};
ghost use Rattle.say_put.specs.Clipped.{Clipped};
ghost use Rattle.disk_sentences.specs.Sentences.{name_told, place_text, about_text, entry_text, stop_text, type_text, open_at_text, open_text, twin_text, twins_text, broken_text};

use disk_entries::name_at;
use disk_names::put_name;
use disk_ways::Stop;
use disk_why::Broken;
use list_bytes::hex_digit;
use say_put::{put_decimal, put_text};

// The track of a sector, also of one that no disk has; those of disk_sectors require that a disk has it.
fn track_of(n: usize) -> usize
    ensures { result ≡ track_of n }
{
    match n {
        0..357 => 1 + n / 21,
        357..490 => 18 + (n - 357) / 19,
        490..598 => 25 + (n - 490) / 18,
        _ => 31 + (n - 598) / 17,
    }
}

fn sector_of(n: usize) -> usize
    ensures { result ≡ sector_of n }
{
    match n {
        0..357 => n % 21,
        357..490 => (n - 357) % 19,
        490..598 => (n - 490) % 18,
        _ => (n - 598) % 17,
    }
}

// An entry's name; none where no entry stands.
fn name_told(disk: &[u8], p: usize) -> &[u8]
    ensures { result.now ≡ name_told disk.now p }
{
    if disk.len() < 30 {
        return &disk[..0];
    }
    if p > disk.len() - 30 {
        return &disk[..0];
    }
    name_at(disk, p)
}

// Stores a track and a sector.
fn put_place(out: &mut [u8], at: usize, track: usize, sector: usize) -> usize
    requires { at ≤ length out.old }
    ensures { Clipped out.old at (place_text track sector) result out.new }
{
    let a = put_decimal(out, at, track);
    let b = put_text(out, a, b"/");
    put_decimal(out, b, sector)
}

// Stores a track and a sector between two texts.
fn put_about(
    out: &mut [u8],
    at: usize,
    before: &[u8],
    track: usize,
    sector: usize,
    after: &[u8],
) -> usize
    requires { at ≤ length out.old }
    ensures { Clipped out.old at (about_text before.now track sector after.now) result out.new }
{
    let a = put_text(out, at, before);
    let b = put_place(out, a, track, sector);
    put_text(out, b, after)
}

// Stores where an entry stands: its sector, and its place there from 1.
fn put_entry(out: &mut [u8], at: usize, p: usize) -> usize
    requires { at ≤ length out.old }
    ensures { Clipped out.old at (entry_text p) result out.new }
{
    let n = p / 256;
    let a = put_place(out, at, track_of(n), sector_of(n));
    let b = put_text(out, a, b", ");
    put_decimal(out, b, 1 + p % 256 / 32)
}

// Stores how a chain stops.
fn put_stop(out: &mut [u8], at: usize, stop: Stop) -> usize
    requires { at ≤ length out.old }
    ensures { Clipped out.old at (stop_text stop) result out.new }
{
    match stop {
        Stop::Ended(n, byte) => {
            let a = put_about(
                out,
                at,
                b" ends at ",
                track_of(n),
                sector_of(n),
                b" with a second byte of ",
            );
            put_decimal(out, a, usize::from(byte))
        }
        Stop::Astray(track, sector) => {
            let a = put_text(out, at, b" leaves the disk at ");
            put_place(out, a, usize::from(track), usize::from(sector))
        }
        Stop::Barred(n) => put_about(
            out,
            at,
            b" goes to ",
            track_of(n),
            sector_of(n),
            b", where it may not be",
        ),
        Stop::Again(n) => put_about(
            out,
            at,
            b" comes to ",
            track_of(n),
            sector_of(n),
            b", which was met before",
        ),
    }
}

// Stores a byte as two hex digits.
fn put_hex(out: &mut [u8], at: usize, byte: u8) -> usize
    requires { at ≤ length out.old }
    ensures { Clipped out.old at (hex_byte byte) result out.new }
{
    put_text(out, at, &[hex_digit(byte / 16), hex_digit(byte % 16)])
}

// The byte at an offset, or 0.
fn byte_at(disk: &[u8], p: usize) -> u8
    ensures { result ≡ get_or disk.now p 0 }
{
    if p >= disk.len() {
        return 0;
    }
    disk[p]
}

// Stores what an entry is not, and its type.
fn put_type(out: &mut [u8], at: usize, disk: &[u8], p: usize) -> usize
    requires { at ≤ length out.old }
    ensures { Clipped out.old at (type_text disk.now p) result out.new }
{
    let a = put_text(out, at, b" is no closed PRG file (");
    let b = put_hex(out, a, byte_at(disk, p));
    put_text(out, b, b")")
}

fn put_open_at(out: &mut [u8], at: usize, disk: &[u8], p: usize) -> usize
    requires { at ≤ length out.old }
    ensures { Clipped out.old at (open_at_text disk.now p) result out.new }
{
    let a = put_text(out, at, b" at ");
    let b = put_entry(out, a, p);
    put_type(out, b, disk, p)
}

fn put_open(out: &mut [u8], disk: &[u8], p: usize) -> usize
    ensures { Clipped out.old 0 (open_text disk.now p) result out.new }
{
    let a = put_text(out, 0, b"the entry ");
    let b = put_name(out, a, name_told(disk, p));
    put_open_at(out, b, disk, p)
}

fn put_twin(out: &mut [u8], at: usize, disk: &[u8], q: usize) -> usize
    requires { at ≤ length out.old }
    ensures { Clipped out.old at (twin_text disk.now q) result out.new }
{
    let a = put_text(out, at, b" and ");
    let b = put_entry(out, a, q);
    let c = put_text(out, b, b" have one name, ");
    put_name(out, c, name_told(disk, q))
}

fn put_twins(out: &mut [u8], disk: &[u8], p: usize, q: usize) -> usize
    ensures { Clipped out.old 0 (twins_text disk.now p q) result out.new }
{
    let a = put_text(out, 0, b"the entries at ");
    let b = put_entry(out, a, p);
    put_twin(out, b, disk, q)
}

// Stores the sentence at the start of a buffer, as much of it as fits, and answers how many bytes that are; nothing where nothing is broken.
pub fn put_broken(disk: &[u8], broken: Broken, out: &mut [u8]) -> usize
    ensures { Clipped out.old 0 (broken_text disk.now broken) result out.new }
{
    match broken {
        Broken::Nothing => 0,
        Broken::Length(bytes) => {
            let a = put_text(out, 0, b"the disk has ");
            let b = put_decimal(out, a, bytes);
            put_text(out, b, b" bytes, not 174848")
        }
        Broken::Start(track, sector) => put_about(
            out,
            0,
            b"18/0 links to ",
            usize::from(track),
            usize::from(sector),
            b", not to 18/1",
        ),
        Broken::Directory(stop) => {
            let a = put_text(out, 0, b"the directory");
            put_stop(out, a, stop)
        }
        Broken::NotClosed(p) => put_open(out, disk, p),
        Broken::SameName(p, q) => put_twins(out, disk, p, q),
        Broken::File(p, stop) => {
            let a = put_text(out, 0, b"the chain of ");
            let b = put_name(out, a, name_told(disk, p));
            put_stop(out, b, stop)
        }
        Broken::Free(track, sector) => put_about(
            out,
            0,
            b"the map calls ",
            track,
            sector,
            b" free, which is in a chain",
        ),
        Broken::Used(track, sector) => put_about(
            out,
            0,
            b"the map calls ",
            track,
            sector,
            b" used, which is in no chain",
        ),
        Broken::Beyond(track, sector) => put_about(
            out,
            0,
            b"the map calls ",
            track,
            sector,
            b" free, which does not exist",
        ),
    }
}
