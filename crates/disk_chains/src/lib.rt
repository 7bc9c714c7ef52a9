// Chains of sectors, met once each, and the map beside them.
#![tactic(auto)]

ghost use Rattle.std.specs.Prelude.{◌≡◌, false, ◌&&◌, [], ◌-◌, ◌≤◌, ◌<◌, length, get_or};
ghost use Rattle.disk_rules.specs.Lists.{is_in, none_twice};
ghost use Rattle.disk_rules.specs.Chains.{may_hold, may_end};
ghost use Rattle.disk_rules.specs.CountedHelpers.{chain_within};
ghost use Rattle.disk_rules.specs.Free.{bit_agrees, map_agrees, free_sectors, marked_all};
ghost use Rattle.disk_chains.specs.ChainHelpers.{Sectors, Traces, Marks, Marked, Lists};

use disk_rules::Link;
use disk_sectors::{bit_at, is_free, link_at, mark, sectors_before, sectors_on};

// A chain that was followed: the place behind its last sector in the log, and whether it ends as it should. The place is told of each chain, since a
// caller with a sound disk has no use for an arm where it does not end.
#[derive(Clone, Copy)]
pub struct Traced {
    pub to: usize,
    pub ends: bool,
}

// Whether a chain, the directory's or a file's, may go over a sector.
pub fn may_hold(directory: bool, n: usize) -> bool
    ensures { result ≡ may_hold directory n }
{
    if directory {
        matches!(n, 358..=375)
    } else {
        matches!(n, 0..=356 | 376..=682)
    }
}

// Whether it may end with this second byte.
pub fn may_end(directory: bool, byte: u8) -> bool
    ensures { result ≡ may_end directory byte }
{
    directory || byte != 0
}

// Follows the chain from a sector on and logs its sectors from a place on: at most as many as the log has room for.
pub fn trace(disk: &[u8], directory: bool, first: usize, log: &mut [usize], at: usize) -> Traced
    requires { (length disk.now ≡ 174848) × (at ≤ length log.old) }
    ensures { Traces (chain_within directory (length log.old - at) disk.now first) log.old at result log.new }
{
    let mut n = first;
    for i in at..log.len() {
        if !may_hold(directory, n) {
            return Traced { to: i, ends: false };
        }
        log[i] = n;
        let to = i + 1;
        match link_at(disk, 256 * n) {
            Link::Last(byte) => {
                let ends = may_end(directory, byte);
                return Traced { to, ends };
            }
            Link::To(next) => n = next,
            Link::Astray => return Traced { to, ends: false },
        }
    }
    Traced {
        to: log.len(),
        ends: false,
    }
}

// Marks each sector of a list, from its end on, until one is marked already.
fn mark_once(list: &[usize], marks: &mut [bool]) -> bool
    requires { Sectors list.now × Marks marks.old [] }
    ensures { Marked list.now result marks.new }
{
    for i in (0..list.len()).rev() {
        let n = list[i];
        if marks[n] {
            return false;
        }
        marks[n] = true;
    }
    true
}

// Whether no sector stands in a list twice.
pub fn none_twice(list: &[usize]) -> bool
    requires { Sectors list.now }
    ensures { result ≡ none_twice list.now }
{
    let mut marks = [false; 683];
    mark_once(list, &mut marks)
}

// Whether the map's bit of the sector s of a track is as it should be, with the sectors in chains marked.
fn bit_agrees(disk: &[u8], marks: &[bool], track: usize, sector: usize) -> bool
    requires { (length disk.now ≡ 174848) × (length marks.now ≡ 683) × (1 ≤ track) × (track ≤ 35) × (sector < 24) }
    ensures { result ≡ bit_agrees disk.now (λ n. get_or marks.now n false) track sector }
{
    if track == 18 {
        return true;
    }
    let bit = bit_at(disk, track, sector);
    if sector >= sectors_on(track) {
        bit == 0 // no such sector is there to be free
    } else if marks[sectors_before(track) + sector] {
        bit == 0
    } else {
        bit == 1
    }
}

fn map_agrees(disk: &[u8], marks: &[bool]) -> bool
    requires { (length disk.now ≡ 174848) × (length marks.now ≡ 683) }
    ensures { result ≡ map_agrees disk.now (λ n. get_or marks.now n false) }
{
    (0..840).all(|i| bit_agrees(disk, marks, 1 + i / 24, i % 24))
}

// Whether no sector stands in a list twice, and off track 18 the map calls free exactly those that do not stand in it.
pub fn accounted(disk: &[u8], met: &[usize]) -> bool
    requires { (length disk.now ≡ 174848) × Sectors met.now }
    ensures { result ≡ (none_twice met.now && map_agrees disk.now (is_in met.now)) }
{
    let mut marks = [false; 683];
    mark_once(met, &mut marks) && map_agrees(disk, &marks)
}

// Lists the free sectors off track 18, the lowest first.
pub fn free_sectors(disk: &[u8], list: &mut [usize]) -> usize
    requires { (length disk.now ≡ 174848) × (length list.old ≡ 683) }
    ensures { Lists (free_sectors disk.now) list.old result list.new }
{
    let mut count: usize = 0;
    for n in 0..683 {
        if is_free(disk, n) {
            list[count] = n;
            count += 1;
        }
    }
    count
}

// Marks the sectors of a list free, or used.
pub fn mark_all(disk: &mut [u8], list: &[usize], free: bool)
    requires { (length disk.old ≡ 174848) × Sectors list.now }
    ensures { disk.new ≡ marked_all disk.old list.now free }
{
    for n in list {
        mark(disk, *n, free);
    }
}
