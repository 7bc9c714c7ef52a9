// Whether a disk is sound, with its directory's sectors and its listed entries.
#![tactic(auto)]

ghost use Rattle.std.specs.Prelude.{◌≡◌, ◌&&◌, length};
ghost use Rattle.disk_rules.specs.Lists.{is_in, none_twice};
ghost use Rattle.disk_rules.specs.Free.{map_agrees};
ghost use Rattle.disk_rules.specs.CountedHelpers.{chains_within, directory_within, listed_within, sound_within};
ghost use Rattle.disk_entries.specs.EntryHelpers.{Entries};
ghost use Rattle.disk_check.specs.SoundHelpers.{Looks};

use disk_chains::{accounted, none_twice, trace};
use disk_entries::{entries_good, entries_that, trace_all};

// What a sound disk was seen to be: how many sectors its directory has, and how many files are listed.
#[derive(Clone, Copy)]
pub struct Seen {
    pub sectors: usize,
    pub files: usize,
}

// Whether the chains of the listed entries end as they should, meet no sector twice, and agree with the map.
fn chains_hold(disk: &[u8], files: &[usize]) -> bool
    requires { (length disk.now ≡ 174848) × Entries files.now }
    ensures { result ≡ ((chains_within 683 disk.now files.now).ends && (none_twice (chains_within 683 disk.now files.now).sectors && map_agrees disk.now (is_in (chains_within 683 disk.now files.now).sectors))) }
{
    let mut log = [0usize; 683];
    let traced = trace_all(disk, files, &mut log);
    let to = traced.to;
    traced.ends && accounted(disk, &log[..to])
}

// The rest of the check, after the length, of a disk whose directory's sectors and listed entries are known.
fn holds(disk: &[u8], sectors: &[usize], ends: bool, files: &[usize]) -> bool
    requires { (length disk.now ≡ 174848) × (sectors.now ≡ (directory_within 18 disk.now).sectors) × (ends ≡ (directory_within 18 disk.now).ends) × (files.now ≡ listed_within 18 disk.now) }
    ensures { result ≡ sound_within 18 683 disk.now }
{
    disk[91392] == 18
        && disk[91393] == 1
        && ends
        && none_twice(sectors)
        && entries_good(disk, files)
        && chains_hold(disk, files)
}

// Looks at a disk of the right length: nothing is told of one that is not sound.
pub fn look(disk: &[u8], sectors: &mut [usize], files: &mut [usize]) -> Option<Seen>
    requires { (length disk.now ≡ 174848) × (length sectors.old ≡ 18) × (length files.old ≡ 144) }
    ensures { Looks disk.now result sectors.new files.new }
{
    let traced = trace(disk, true, 358, sectors, 0);
    let k = traced.to;
    let f = entries_that(disk, &sectors[..k], true, files);
    if holds(disk, &sectors[..k], traced.ends, &files[..f]) {
        Some(Seen {
            sectors: k,
            files: f,
        })
    } else {
        None
    }
}
