// The sectors of a disk, their links, and the map of free ones.
#![tactic(auto)]

ghost use Rattle.std.specs.Prelude.{◌≡◌, cond, ◌+◌, ◌/◌, ◌%◌, ◌^◌, ◌<◌, ◌≤◌, length, get_or};
ghost use Rattle.disk_rules.specs.Places.{sectors_on, sectors_before, track_of, sector_of as sector_in};
ghost use Rattle.disk_rules.specs.Links.{link_on, link_at as link_in};
ghost use Rattle.disk_rules.specs.Map.{bit_of, ones as ones_of, with_bit, bit_at as bit_in, is_free as is_free_on, marked};

use disk_rules::Link;

pub fn sectors_on(track: usize) -> usize
    ensures { (result ≡ sectors_on track) × (result ≤ 21) }
{
    match track {
        0..18 => 21,
        18..25 => 19,
        25..31 => 18,
        _ => 17,
    }
}

// How many sectors stand before a track's first, on a disk of up to 40 tracks.
pub fn sectors_before(track: usize) -> usize
    requires { (1 ≤ track) × (track ≤ 40) }
    ensures { (result ≡ sectors_before track) × (result ≤ 751) × (track ≤ 35 → result ≤ 666) }
{
    match track {
        0..18 => 21 * (track - 1),
        18..25 => 357 + 19 * (track - 18),
        25..31 => 490 + 18 * (track - 25),
        _ => 598 + 17 * (track - 31),
    }
}

// The track of a sector.
pub fn track_of(n: usize) -> usize
    requires { n < 683 }
    ensures { (result ≡ track_of n) × (1 ≤ result) × (result ≤ 35) }
{
    match n {
        0..357 => 1 + n / 21,
        357..490 => 18 + (n - 357) / 19,
        490..598 => 25 + (n - 490) / 18,
        _ => 31 + (n - 598) / 17,
    }
}

// Which of its track's sectors a sector is.
pub fn sector_of(n: usize) -> usize
    requires { n < 683 }
    ensures { (result ≡ sector_in n) × (result ≤ 20) }
{
    match n {
        0..357 => n % 21,
        357..490 => (n - 357) % 19,
        490..598 => (n - 490) % 18,
        _ => (n - 598) % 17,
    }
}

// What a track and a sector link to on a disk of so many tracks.
fn link_to(tracks: usize, track: u8, sector: u8) -> Link
    requires { tracks ≤ 40 }
    ensures { result ≡ link_on tracks track sector }
{
    let t = usize::from(track);
    let s = usize::from(sector);
    if track == 0 {
        Link::Last(sector)
    } else if t > tracks {
        Link::Astray
    } else if s >= sectors_on(t) {
        Link::Astray
    } else {
        Link::To(sectors_before(t) + s)
    }
}

// The link in the two bytes at an offset of a disk of so many tracks.
pub fn link_on(disk: &[u8], tracks: usize, at: usize) -> Link
    requires { (at + 1 < length disk.now) × (tracks ≤ 40) }
    ensures { result ≡ link_on tracks (get_or disk.now at 0) (get_or disk.now (at + 1) 0) }
{
    link_to(tracks, disk[at], disk[at + 1])
}

// The same on a disk of 35 tracks.
pub fn link_at(disk: &[u8], at: usize) -> Link
    requires { at + 1 < length disk.now }
    ensures { result ≡ link_in disk.now at }
{
    link_on(disk, 35, at)
}

fn bit(byte: u8, k: usize) -> u8
    requires { k < 8 }
    ensures { (result ≡ bit_of byte k) × (result ≤ 1) }
{
    (byte >> k) & 1
}

fn ones(byte: u8) -> u8
    ensures { (result ≡ ones_of byte) × (result ≤ 8) }
{
    byte.count_ones() as u8
}

fn with_bit(byte: u8, k: usize, one: bool) -> u8
    requires { k < 8 }
    ensures { result ≡ with_bit byte k one }
{
    if one {
        byte | (1 << k)
    } else {
        byte & !(1 << k)
    }
}

// The map's bit of the sector s of a track.
pub fn bit_at(disk: &[u8], track: usize, sector: usize) -> u8
    requires { (length disk.now ≡ 174848) × (track ≤ 35) × (sector < 24) }
    ensures { (result ≡ bit_in disk.now track sector) × (result ≤ 1) }
{
    bit(disk[91392 + 4 * track + 1 + sector / 8], sector % 8)
}

// Whether a sector stands off track 18 and the map calls it free.
pub fn is_free(disk: &[u8], n: usize) -> bool
    requires { (length disk.now ≡ 174848) × (n < 683) }
    ensures { result ≡ is_free_on disk.now n }
{
    match n {
        357..=375 => false,
        _ => bit_at(disk, track_of(n), sector_of(n)) == 1,
    }
}

// Marks a sector free, or used, and counts its track anew.
pub fn mark(disk: &mut [u8], n: usize, free: bool)
    requires { (length disk.old ≡ 174848) × (n < 683) }
    ensures { disk.new ≡ marked disk.old n free }
{
    let sector = sector_of(n);
    let count = 91392 + 4 * track_of(n);
    let at = count + 1 + sector / 8;
    disk[at] = with_bit(disk[at], sector % 8, free);
    disk[count] = ones(disk[count + 1]) + ones(disk[count + 2]) + ones(disk[count + 3]);
}
