// What can be read of any image of a disk, whatever its map says. Nothing is written.
#![tactic(auto)]

ghost use Rattle.std.specs.Prelude.{◌≡◌, true, ◌+◌, ◌*◌, ◌≤◌, ◌<◌, length};
ghost use Rattle.disk_rules.specs.Entries.{entries_that};
ghost use Rattle.disk_any.specs.Any.{disk_kind, directory_on, stop_by, any_listed, any_spot, entry_on, entry_told, name_of, file_on, read_by, any_file};
ghost use Rattle.disk_any.specs.AnyHelpers.{Holds, Placed};
ghost use Rattle.disk_bytes.specs.ByteHelpers.{Below};

use disk_bytes::{measure, take_out};
use disk_entries::name_at;
use disk_ways::{Over, Stop, ends_as, follow, follow_entry};

// What an image is by its length: a D64 of so many tracks, the disk of a 1571 or a 1581, or none of these.
#[derive(Clone, Copy)]
pub enum DiskKind {
    D64(usize),
    D71,
    D81,
    Other,
}

// A directory's entry: its type, the track and the sector of its file's first sector, and how many sectors it says to have.
#[derive(Clone, Copy)]
pub struct Entry {
    pub kind: u8,
    pub track: u8,
    pub sector: u8,
    pub sectors: usize,
}

// Why a file is not read: there is no such entry; its chain does not end, but stops so; or the buffer has not the room for so many bytes.
#[derive(Clone, Copy)]
pub enum Unread {
    NoEntry,
    Stopped(Stop),
    NoRoom(usize),
}

pub fn disk_kind(length: usize) -> DiskKind
    ensures { result ≡ disk_kind length }
{
    if length == 174848 {
        return DiskKind::D64(35);
    }
    if length == 175531 {
        return DiskKind::D64(35);
    }
    if length == 196608 {
        return DiskKind::D64(40);
    }
    if length == 197376 {
        return DiskKind::D64(40);
    }
    if length == 349696 {
        return DiskKind::D71;
    }
    if length == 351062 {
        return DiskKind::D71;
    }
    if length == 819200 {
        return DiskKind::D81;
    }
    if length == 822400 {
        return DiskKind::D81;
    }
    DiskKind::Other
}

// The listed entry at a place, from 0, of a directory's sectors.
fn seek(disk: &[u8], sectors: &[usize], place: usize) -> Option<usize>
    requires { Below disk.now sectors.now }
    ensures { Placed disk.now (entries_that true disk.now sectors.now) place result }
{
    let end = 8 * sectors.len();
    let mut left = place;
    for next in 0..end {
        let p = 256 * sectors[next / 8] + 2 + 32 * (next % 8);
        if disk[p] != 0 {
            if left == 0 {
                return Some(p);
            }
            left -= 1;
        }
    }
    None
}

// The listed entry at a place of a disk of so many tracks.
fn locate_on(disk: &[u8], tracks: usize, place: usize) -> Option<usize>
    requires { Holds disk.now tracks }
    ensures { Placed disk.now (entries_that true disk.now (directory_on tracks disk.now).sectors) place result }
{
    let mut log = [0usize; 768];
    let mut marks = [false; 768];
    let followed = follow(disk, Over::Tracks(tracks), 358, &mut log, &mut marks);
    let to = followed.to;
    seek(disk, &log[..to], place)
}

fn locate(disk: &[u8], place: usize) -> Option<usize>
    ensures { Placed disk.now (any_listed disk.now) place result }
{
    match disk_kind(disk.len()) {
        DiskKind::D64(tracks) => locate_on(disk, tracks, place),
        _ => None,
    }
}

// How the directory's chain stops on a disk of so many tracks.
fn stop_on(disk: &[u8], tracks: usize) -> Stop
    requires { Holds disk.now tracks }
    ensures { result ≡ (directory_on tracks disk.now).stop }
{
    let mut log = [0usize; 768];
    let mut marks = [false; 768];
    let followed = follow(disk, Over::Tracks(tracks), 358, &mut log, &mut marks);
    followed.stop
}

// How the directory's chain stops; nothing where the image is no D64.
pub fn directory_stop(disk: &[u8]) -> Option<Stop>
    ensures { result ≡ stop_by disk.now (disk_kind (length disk.now)) }
{
    match disk_kind(disk.len()) {
        DiskKind::D64(tracks) => Some(stop_on(disk, tracks)),
        _ => None,
    }
}

// The entry that stands at an offset.
fn described(disk: &[u8], p: usize) -> Entry
    requires { p + 30 ≤ length disk.now }
    ensures { result ≡ entry_on disk.now p }
{
    let low = usize::from(disk[p + 28]);
    let high = usize::from(disk[p + 29]);
    Entry {
        kind: disk[p],
        track: disk[p + 1],
        sector: disk[p + 2],
        sectors: low + 256 * high,
    }
}

// The entry at a place of the directory, the places counted from 0.
pub fn entry_at(disk: &[u8], place: usize) -> Option<Entry>
    ensures { result ≡ entry_told disk.now (any_spot disk.now place) }
{
    match locate(disk, place) {
        Some(p) => Some(described(disk, p)),
        None => None,
    }
}

// Its name, as that part of the image.
pub fn name(disk: &[u8], place: usize) -> &[u8]
    ensures { result.now ≡ name_of disk.now (any_spot disk.now place) }
{
    match locate(disk, place) {
        Some(p) => name_at(disk, p),
        None => &disk[..0],
    }
}

// The file of an entry on a disk of so many tracks.
fn file_on(disk: &[u8], tracks: usize, p: usize, out: &mut [u8]) -> Result<usize, Unread>
    requires { Holds disk.now tracks × (p + 30 ≤ length disk.now) }
    ensures { record { answer = result; buffer = out.new } ≡ read_by disk.now (file_on tracks disk.now p) out.old }
{
    let mut log = [0usize; 768];
    let mut marks = [false; 768];
    let followed = follow_entry(disk, Over::Tracks(tracks), p, &mut log, &mut marks);
    let stop = followed.stop;
    if !ends_as(true, stop) {
        return Err(Unread::Stopped(stop));
    }
    let to = followed.to;
    let needed = measure(disk, &log[..to]);
    if needed > out.len() {
        return Err(Unread::NoRoom(needed));
    }
    take_out(disk, &log[..to], out);
    Ok(needed)
}

// Reads the file of the entry at a place into the start of a buffer.
pub fn file(disk: &[u8], place: usize, out: &mut [u8]) -> Result<usize, Unread>
    ensures { record { answer = result; buffer = out.new } ≡ any_file disk.now place out.old }
{
    match disk_kind(disk.len()) {
        DiskKind::D64(tracks) => match locate(disk, place) {
            Some(p) => file_on(disk, tracks, p, out),
            None => Err(Unread::NoEntry),
        },
        _ => Err(Unread::NoEntry),
    }
}
