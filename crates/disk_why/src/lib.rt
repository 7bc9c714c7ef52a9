// The first rule of the check that a disk breaks, and where.
#![tactic(auto)]

ghost use Rattle.std.specs.Prelude.{◌≡◌, false, ◌+◌, ◌≤◌, ◌<◌, length, get_or};
ghost use Rattle.disk_ways.specs.Ways.{way_of};
ghost use Rattle.disk_ways.specs.declared.Over.TheVariants.{Files};
ghost use Rattle.disk_entries.specs.EntryHelpers.{Entries};
ghost use Rattle.disk_why.specs.Why.{is_nothing, entry_fault, file_fault, alone_fault, bit_fault, map_fault, listed_fault, why as why_of};
ghost use Rattle.disk_why.specs.BrokenHelpers.{Crosses, Crossed};

use disk_entries::{entries_that, find, name_at};
use disk_sectors::{bit_at, sectors_before, sectors_on};
use disk_ways::{Over, Stop, ends_as, follow, follow_entry};

// Which rule is broken, and where. An entry is known by the offset of its type.
#[derive(Clone, Copy)]
pub enum Broken {
    Nothing,
    // How many bytes there are.
    Length(usize),
    // The track and the sector that 18/0 links to.
    Start(u8, u8),
    // How the directory's chain stops.
    Directory(Stop),
    // An entry that is no closed PRG file.
    NotClosed(usize),
    // Two entries of one name.
    SameName(usize, usize),
    // An entry, and how its chain stops.
    File(usize, Stop),
    // A track and a sector that the map calls free, though it is in a chain.
    Free(usize, usize),
    // The same that it calls used, though it is in none.
    Used(usize, usize),
    // The same that it calls free, though the track has no such sector.
    Beyond(usize, usize),
}

pub fn is_nothing(broken: Broken) -> bool
    ensures { result ≡ is_nothing broken }
{
    matches!(broken, Broken::Nothing)
}

// What is broken by an entry's type, or by an entry behind it of its name.
fn entry_fault(disk: &[u8], files: &[usize]) -> Broken
    requires { (length disk.now ≡ 174848) × Entries files.now }
    ensures { result ≡ entry_fault disk.now files.now }
{
    for (i, p) in files.iter().enumerate() {
        if disk[*p] != 0x82 {
            return Broken::NotClosed(*p);
        }
        if let Some(q) = find(disk, &files[i + 1..], name_at(disk, *p)) {
            return Broken::SameName(*p, q);
        }
    }
    Broken::Nothing
}

// How an entry's chain stops over sectors that are not marked; they are marked then.
fn file_stop(disk: &[u8], p: usize, marks: &mut [bool]) -> Stop
    requires { (length disk.now ≡ 174848) × (p + 30 ≤ 174848) × (683 ≤ length marks.old) }
    ensures { Crosses (way_of Files 683 disk.now (λ m. get_or marks.old m false) p) marks.old result marks.new }
{
    let mut log = [0usize; 683];
    let followed = follow_entry(disk, Over::Files, p, &mut log, marks);
    followed.stop
}

// What is broken by an entry's chain alone.
fn alone_fault(disk: &[u8], p: usize) -> Broken
    requires { (length disk.now ≡ 174848) × (p + 30 ≤ 174848) }
    ensures { result ≡ file_fault disk.now (λ m. false) p }
{
    let mut marks = [false; 683];
    let stop = file_stop(disk, p, &mut marks);
    if ends_as(false, stop) {
        return Broken::Nothing;
    }
    Broken::File(p, stop)
}

// What is broken by the chain of one of the entries alone.
fn chain_fault(disk: &[u8], files: &[usize]) -> Broken
    requires { (length disk.now ≡ 174848) × Entries files.now }
    ensures { result ≡ alone_fault disk.now files.now }
{
    for p in files {
        let fault = alone_fault(disk, *p);
        if !is_nothing(fault) {
            return fault;
        }
    }
    Broken::Nothing
}

// What is broken by a sector in two chains; the sectors in chains are marked.
fn crossed_fault(disk: &[u8], files: &[usize], marks: &mut [bool]) -> Broken
    requires { (length disk.now ≡ 174848) × Entries files.now × (683 ≤ length marks.old) }
    ensures { Crossed disk.now files.now marks.old result marks.new }
{
    for p in files {
        let stop = file_stop(disk, *p, marks);
        if !ends_as(false, stop) {
            return Broken::File(*p, stop);
        }
    }
    Broken::Nothing
}

// What is broken by the map's bit of the sector s of a track, with the sectors in chains marked.
fn bit_fault(disk: &[u8], marks: &[bool], track: usize, sector: usize) -> Broken
    requires { (length disk.now ≡ 174848) × (length marks.now ≡ 683) × (1 ≤ track) × (track ≤ 35) × (sector < 24) }
    ensures { result ≡ bit_fault disk.now (λ n. get_or marks.now n false) track sector }
{
    if track == 18 {
        return Broken::Nothing;
    }
    let bit = bit_at(disk, track, sector);
    if sector >= sectors_on(track) {
        if bit == 0 {
            return Broken::Nothing;
        }
        return Broken::Beyond(track, sector);
    }
    if marks[sectors_before(track) + sector] {
        if bit == 0 {
            return Broken::Nothing;
        }
        return Broken::Free(track, sector);
    }
    if bit == 1 {
        return Broken::Nothing;
    }
    Broken::Used(track, sector)
}

fn map_fault(disk: &[u8], marks: &[bool]) -> Broken
    requires { (length disk.now ≡ 174848) × (length marks.now ≡ 683) }
    ensures { result ≡ map_fault disk.now (λ n. get_or marks.now n false) }
{
    for i in 0..840 {
        let fault = bit_fault(disk, marks, 1 + i / 24, i % 24);
        if !is_nothing(fault) {
            return fault;
        }
    }
    Broken::Nothing
}

// What is broken behind the directory, with its listed entries at hand.
fn listed_fault(disk: &[u8], files: &[usize]) -> Broken
    requires { (length disk.now ≡ 174848) × Entries files.now }
    ensures { result ≡ listed_fault disk.now files.now }
{
    let entry = entry_fault(disk, files);
    if !is_nothing(entry) {
        return entry;
    }
    let alone = chain_fault(disk, files);
    if !is_nothing(alone) {
        return alone;
    }
    let mut marks = [false; 683];
    let crossed = crossed_fault(disk, files, &mut marks);
    if !is_nothing(crossed) {
        return crossed;
    }
    map_fault(disk, &marks)
}

// The first rule of the check that a disk breaks, in the check's order, and where.
pub fn why(disk: &[u8]) -> Broken
    ensures { result ≡ why_of disk.now }
{
    if disk.len() != 174848 {
        return Broken::Length(disk.len());
    }
    if disk[91392] != 18 {
        return Broken::Start(disk[91392], disk[91393]);
    }
    if disk[91393] != 1 {
        return Broken::Start(disk[91392], disk[91393]);
    }
    let mut log = [0usize; 18];
    let mut marks = [false; 683];
    let followed = follow(disk, Over::Directory, 358, &mut log, &mut marks);
    let stop = followed.stop;
    if !ends_as(true, stop) {
        return Broken::Directory(stop);
    }
    let to = followed.to;
    let mut files = [0usize; 144];
    let count = entries_that(disk, &log[..to], true, &mut files);
    listed_fault(disk, &files[..count])
}
