// Saving a file whose name is free: the sectors that it takes, where its entry goes, and what is written there.
#![tactic(auto)]

ghost use Rattle.std.specs.Prelude.{◌≡◌, ◌≤◌, length};
ghost use Rattle.std.specs.List.{slice_get};
ghost use Rattle.disk_rules.specs.Entries.{directory};
ghost use Rattle.disk_rules.specs.Calls.{sectors_for, outside, with_file, onto_disk, leaving};
ghost use Rattle.disk_saves.specs.FileHelpers.{Chosen};
ghost use Rattle.disk_saves.specs.SaveHelpers.{saved_new};

use crate::file::{put_file, put_grown};
use base_refusals::Refusal;
use disk_chains::free_sectors;
use disk_entries::entries_that;

mod file;

// How many sectors an image takes.
fn sectors_for(image: &[u8]) -> usize
    ensures { result ≡ sectors_for image.now }
{
    image.len().div_ceil(254).max(1)
}

// The lowest of 18/1 to 18/18 outside a directory's sectors.
fn lowest_outside(sectors: &[usize]) -> Option<usize>
    ensures { result ≡ slice_get (outside sectors.now) 0 }
{
    for n in 358..376 {
        if !sectors.contains(&n) {
            return Some(n);
        }
    }
    None
}

// Saves a file on the sectors that were chosen for it.
fn save_on(
    disk: &mut [u8],
    sectors: &[usize],
    name: &[u8],
    image: &[u8],
    chosen: &[usize],
) -> Result<(), Refusal>
    requires { (length disk.old ≡ 174848) × (sectors.now ≡ (directory disk.old).sectors) × (length sectors.now ≤ 18) × (length name.now ≤ 16) × Chosen chosen.now image.now }
    ensures { leaving result disk.new ≡ onto_disk (with_file disk.old name.now image.now chosen.now) disk.old }
{
    let mut unlisted = [0usize; 144];
    if entries_that(disk, sectors, false, &mut unlisted) > 0 {
        put_file(disk, unlisted[0], name, image, chosen);
        return Ok(());
    }
    let Some(n) = lowest_outside(sectors) else {
        return Err(Refusal::DirectoryFull);
    };
    put_grown(disk, sectors[sectors.len() - 1], n, name, image, chosen);
    Ok(())
}

// Saves a file on a sound disk that lists none of its name.
pub fn save_new(
    disk: &mut [u8],
    sectors: &[usize],
    name: &[u8],
    image: &[u8],
) -> Result<(), Refusal>
    requires { (length disk.old ≡ 174848) × (sectors.now ≡ (directory disk.old).sectors) × (length sectors.now ≤ 18) × (length name.now ≤ 16) }
    ensures { leaving result disk.new ≡ onto_disk (saved_new disk.old name.now image.now) disk.old }
{
    let mut free = [0usize; 683];
    let count = free_sectors(disk, &mut free);
    let needed = sectors_for(image);
    if count < needed {
        return Err(Refusal::DiskFull);
    }
    save_on(disk, sectors, name, image, &free[..needed])
}
