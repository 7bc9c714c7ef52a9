// The way of a chain from sector to sector: no sector is met twice, and how it stops is told.
#![tactic(auto)]

ghost use Rattle.std.specs.Prelude.{◌≡◌, false, ◌+◌, ◌*◌, ◌≤◌, ◌<◌, length, get_or};
ghost use Rattle.disk_ways.specs.Ways.{tracks_over, sectors_over, may_go, stray_at, refused_at, way, way_of, ends_as};
ghost use Rattle.disk_ways.specs.WayHelpers.{Follows};

use disk_chains::{may_end, may_hold};
use disk_rules::Link;
use disk_sectors::link_on;

// What a way goes over: the directory's sectors, those off track 18, or all of a disk of so many tracks.
#[derive(Clone, Copy)]
pub enum Over {
    Directory,
    Files,
    Tracks(usize),
}

// How a way stops: at a last sector, with its second byte; at a track and a sector that do not exist; at a sector that it may not go to;
// at one that was met before.
#[derive(Clone, Copy)]
pub enum Stop {
    Ended(usize, u8),
    Astray(u8, u8),
    Barred(usize),
    Again(usize),
}

// A way that was followed: how many sectors it has in the log, and how it stops.
#[derive(Clone, Copy)]
pub struct Followed {
    pub to: usize,
    pub stop: Stop,
}

pub fn tracks_over(over: Over) -> usize
    ensures { result ≡ tracks_over over }
{
    match over {
        Over::Directory | Over::Files => 35,
        Over::Tracks(tracks) => tracks,
    }
}

// Whether a way may go to a sector.
fn may_go(over: Over, n: usize) -> bool
    ensures { result ≡ may_go over n }
{
    match over {
        Over::Directory => may_hold(true, n),
        Over::Files => may_hold(false, n),
        Over::Tracks(_) => true,
    }
}

fn refused_at(over: Over, n: usize) -> Stop
    ensures { result ≡ refused_at over n }
{
    if may_go(over, n) {
        Stop::Again(n)
    } else {
        Stop::Barred(n)
    }
}

// The track and the sector in the two bytes at an offset, which do not exist.
fn astray_at(disk: &[u8], at: usize) -> Stop
    requires { at + 1 < length disk.now }
    ensures { result ≡ stray_at disk.now at }
{
    Stop::Astray(disk[at], disk[at + 1])
}

// Follows the way from a sector on over sectors that are not marked: logs them from the log's start on, as many as it has room for, and marks
// them.
pub fn follow(
    disk: &[u8],
    over: Over,
    first: usize,
    log: &mut [usize],
    marks: &mut [bool],
) -> Followed
    requires { (31 ≤ tracks_over over) × (tracks_over over ≤ 40) × (256 * sectors_over over ≤ length disk.now) × (sectors_over over ≤ length marks.old) × (first < sectors_over over) }
    ensures { Follows (way over (length log.old) disk.now (λ m. get_or marks.old m false) first) log.old marks.old result log.new marks.new }
{
    let tracks = tracks_over(over);
    let mut n = first;
    for i in 0..log.len() {
        if !may_go(over, n) {
            let stop = Stop::Barred(n);
            return Followed { to: i, stop };
        }
        if marks[n] {
            let stop = Stop::Again(n);
            return Followed { to: i, stop };
        }
        marks[n] = true;
        log[i] = n;
        let to = i + 1;
        match link_on(disk, tracks, 256 * n) {
            Link::Last(byte) => {
                let stop = Stop::Ended(n, byte);
                return Followed { to, stop };
            }
            Link::To(next) => n = next,
            Link::Astray => {
                let stop = astray_at(disk, 256 * n);
                return Followed { to, stop };
            }
        }
    }
    let stop = refused_at(over, n);
    Followed {
        to: log.len(),
        stop,
    }
}

// The same of the way of an entry's file.
pub fn follow_entry(
    disk: &[u8],
    over: Over,
    p: usize,
    log: &mut [usize],
    marks: &mut [bool],
) -> Followed
    requires { (31 ≤ tracks_over over) × (tracks_over over ≤ 40) × (256 * sectors_over over ≤ length disk.now) × (sectors_over over ≤ length marks.old) × (p + 30 ≤ length disk.now) }
    ensures { Follows (way_of over (length log.old) disk.now (λ m. get_or marks.old m false) p) log.old marks.old result log.new marks.new }
{
    let at = p + 1;
    match link_on(disk, tracks_over(over), at) {
        Link::To(first) => follow(disk, over, first, log, marks),
        Link::Last(_) | Link::Astray => Followed {
            to: 0,
            stop: astray_at(disk, at),
        },
    }
}

// Whether a way ends as a chain, the directory's or a file's, should.
pub fn ends_as(directory: bool, stop: Stop) -> bool
    ensures { result ≡ ends_as directory stop }
{
    match stop {
        Stop::Ended(_, byte) => may_end(directory, byte),
        _ => false,
    }
}
