// A disk's directory as a text: a line for each file, and one for the sectors that are free.
#![tactic(auto)]

ghost use Rattle.std.specs.Prelude.{◌≡◌, true, ◌+◌, ◌≤◌, length};
ghost use Rattle.say_put.specs.Clipped.{Clipped};
ghost use Rattle.disk_rules.specs.Lists.{is_in};
ghost use Rattle.disk_rules.specs.Entries.{listed};
ghost use Rattle.disk_rules.specs.Check.{sound};
ghost use Rattle.disk_directory.specs.Listing.{file_line, file_lines, free_line, Shows};

use base_refusals::Refusal;
use disk_chains::free_sectors;
use disk_check::look;
use disk_entries::{name_at, trace_entry};
use disk_names::put_name;
use say_put::{put_decimal, put_text};

// Stores the line of a file: how many sectors its chain has, and its name.
fn put_file(out: &mut [u8], at: usize, disk: &[u8], p: usize) -> usize
    requires { (at ≤ length out.old) × (length disk.now ≡ 174848) × (sound disk.now ≡ true) × (is_in (listed disk.now) p ≡ true) }
    ensures { Clipped out.old at (file_line disk.now p) result out.new }
{
    let mut log = [0usize; 683];
    let traced = trace_entry(disk, p, &mut log, 0);
    let number = put_decimal(out, at, traced.to);
    let space = put_text(out, number, b" ");
    let name = put_name(out, space, name_at(disk, p));
    put_text(out, name, b"\n")
}

fn put_files(out: &mut [u8], disk: &[u8], files: &[usize]) -> usize
    requires { (length disk.now ≡ 174848) × (sound disk.now ≡ true) × (files.now ≡ listed disk.now) }
    ensures { Clipped out.old 0 (file_lines disk.now files.now) result out.new }
{
    let mut to: usize = 0;
    for p in files {
        to = put_file(out, to, disk, *p);
    }
    to
}

fn put_free(out: &mut [u8], at: usize, disk: &[u8]) -> usize
    requires { (at ≤ length out.old) × (length disk.now ≡ 174848) }
    ensures { Clipped out.old at (free_line disk.now) result out.new }
{
    let mut list = [0usize; 683];
    let free = free_sectors(disk, &mut list);
    let number = put_decimal(out, at, free);
    put_text(out, number, b" sectors free\n")
}

// Stores the directory's text at the start of a buffer, as much of it as fits, and answers how many bytes that are.
pub fn put_directory(disk: &[u8], out: &mut [u8]) -> Result<usize, Refusal>
    ensures { Shows disk.now out.old result out.new }
{
    if disk.len() != 174848 {
        return Err(Refusal::BadDisk);
    }
    let mut sectors = [0usize; 18];
    let mut files = [0usize; 144];
    let Some(seen) = look(disk, &mut sectors, &mut files) else {
        return Err(Refusal::BadDisk);
    };
    let count = seen.files;
    let at = put_files(out, disk, &files[..count]);
    Ok(put_free(out, at, disk))
}
