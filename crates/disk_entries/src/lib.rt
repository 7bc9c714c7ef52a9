// The directory's entries: where they stand, their names, and the chains of files.
#![tactic(auto)]

ghost use Rattle.std.specs.Prelude.{◌≡◌, ◌+◌, ◌*◌, ◌-◌, ◌≤◌, ◌<◌, length, find};
ghost use Rattle.disk_rules.specs.Entries.{entry_at, is_that, entries_that, name_at, is_named, entries_good};
ghost use Rattle.disk_rules.specs.CountedHelpers.{chain_of_within, chains_within};
ghost use Rattle.disk_chains.specs.ChainHelpers.{Sectors, Traces, Lists};
ghost use Rattle.disk_entries.specs.EntryHelpers.{Entries, Before};

use disk_chains::{Traced, trace};
use disk_rules::Link;
use disk_sectors::link_at;

// The offset of the e-th entry in a directory's sectors.
fn entry_at(sectors: &[usize], e: usize) -> usize
    requires { Sectors sectors.now × (e < 8 * length sectors.now) }
    ensures { (result ≡ entry_at sectors.now e) × (result + 30 ≤ 174848) }
{
    256 * sectors[e / 8] + 2 + 32 * (e % 8)
}

// Whether an entry is listed, or is not.
fn is_that(disk: &[u8], p: usize, listed: bool) -> bool
    requires { p < length disk.now }
    ensures { result ≡ is_that listed disk.now p }
{
    (disk[p] != 0) == listed
}

// Lists the entries that are listed, or those that are not, in the chain's order.
pub fn entries_that(disk: &[u8], sectors: &[usize], listed: bool, list: &mut [usize]) -> usize
    requires { (length disk.now ≡ 174848) × Sectors sectors.now × (8 * length sectors.now ≤ length list.old) × (length list.old ≤ 144) }
    ensures { Lists (entries_that listed disk.now sectors.now) list.old result list.new }
{
    let end = 8 * sectors.len();
    let mut count: usize = 0;
    for e in 0..end {
        let p = entry_at(sectors, e);
        if is_that(disk, p, listed) {
            list[count] = p;
            count += 1;
        }
    }
    count
}

// How many bytes stand before the first A0.
fn before_a0(bytes: &[u8]) -> usize
    ensures { Before bytes.now result }
{
    bytes.iter().take_while(|byte| **byte != 0xA0).count()
}

// An entry's name, as that part of the disk.
pub fn name_at(disk: &[u8], p: usize) -> &[u8]
    requires { p + 30 ≤ length disk.now }
    ensures { result.now ≡ name_at disk.now p }
{
    let from = p + 3;
    let to = p + 19;
    let end = from + before_a0(&disk[from..to]);
    &disk[from..end]
}

fn is_named(disk: &[u8], p: usize, name: &[u8]) -> bool
    requires { p + 30 ≤ length disk.now }
    ensures { result ≡ is_named disk.now name.now p }
{
    check::same(name_at(disk, p), name)
}

// The first entry with a name in a list of entries.
pub fn find(disk: &[u8], entries: &[usize], name: &[u8]) -> Option<usize>
    requires { (length disk.now ≡ 174848) × Entries entries.now }
    ensures { result ≡ find (is_named disk.now name.now) entries.now }
{
    for p in entries {
        if is_named(disk, *p, name) {
            return Some(*p);
        }
    }
    None
}

// Whether each entry is of type 82, and none behind it has its name.
pub fn entries_good(disk: &[u8], entries: &[usize]) -> bool
    requires { (length disk.now ≡ 174848) × Entries entries.now }
    ensures { result ≡ entries_good disk.now entries.now }
{
    for (i, p) in entries.iter().enumerate() {
        if disk[*p] != 0x82 {
            return false;
        }
        if find(disk, &entries[i + 1..], name_at(disk, *p)).is_some() {
            return false; // two of one name
        }
    }
    true
}

// Follows an entry's chain and logs its sectors from a place on.
pub fn trace_entry(disk: &[u8], p: usize, log: &mut [usize], at: usize) -> Traced
    requires { (length disk.now ≡ 174848) × (p + 30 ≤ 174848) × (at ≤ length log.old) }
    ensures { Traces (chain_of_within (length log.old - at) disk.now p) log.old at result log.new }
{
    match link_at(disk, p + 1) {
        Link::To(first) => trace(disk, false, first, log, at),
        Link::Last(_) | Link::Astray => Traced {
            to: at,
            ends: false,
        },
    }
}

// Follows the chains of entries one after the other, and logs their sectors.
pub fn trace_all(disk: &[u8], entries: &[usize], log: &mut [usize]) -> Traced
    requires { (length disk.now ≡ 174848) × Entries entries.now }
    ensures { Traces (chains_within (length log.old) disk.now entries.now) log.old 0 result log.new }
{
    let mut at: usize = 0;
    for p in entries {
        let traced = trace_entry(disk, *p, log, at);
        if !traced.ends {
            return traced;
        }
        at = traced.to;
    }
    Traced { to: at, ends: true }
}
