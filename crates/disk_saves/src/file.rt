// A file written on sectors that were chosen for it: its bytes, its entry, and the directory's growth.
ghost use Rattle.std.specs.Prelude.{◌≡◌, false, ◌+◌, ◌*◌, ◌≤◌, ◌<◌, length};
ghost use Rattle.std.proofs.lemmas.List.Edits.{sets};
ghost use Rattle.disk_rules.specs.Free.{marked_all};
ghost use Rattle.disk_rules.specs.Calls.{laid, entry_bytes, grown};
ghost use Rattle.disk_saves.specs.FileHelpers.{Chosen};
ghost use Rattle.disk_chains.specs.ChainHelpers.{Sectors};

use disk_bytes::{lay, store, write_sector};
use disk_chains::mark_all;
use disk_sectors::{mark, sector_of, track_of};

// Lays an image out over sectors and marks them used.
fn put_bytes(disk: &mut [u8], list: &[usize], image: &[u8])
    requires { (length disk.old ≡ 174848) × Chosen list.now image.now }
    ensures { disk.new ≡ marked_all (laid disk.old list.now image.now) list.now false }
{
    lay(disk, list, image);
    mark_all(disk, list, false);
}

// Writes a file's entry, all 30 bytes.
fn put_entry(disk: &mut [u8], p: usize, name: &[u8], list: &[usize])
    requires { (length disk.old ≡ 174848) × (p + 30 ≤ 174848) × (length name.now ≤ 16) × Sectors list.now × (1 ≤ length list.now) × (length list.now ≤ 683) }
    ensures { disk.new ≡ sets disk.old p (entry_bytes name.now list.now) }
{
    let mut padded = [0xA0u8; 16];
    store(&mut padded, 0, name);
    let first = list[0];
    let count = list.len();
    let mut entry = [0u8; 30];
    entry[0] = 0x82;
    entry[1] = track_of(first) as u8;
    entry[2] = sector_of(first) as u8;
    entry[28] = (count % 256) as u8;
    entry[29] = (count / 256) as u8;
    store(&mut entry, 3, &padded);
    store(disk, p, &entry);
}

// Makes a sector the directory's last.
fn grow(disk: &mut [u8], last: usize, n: usize)
    requires { (length disk.old ≡ 174848) × (last < 683) × (n < 683) }
    ensures { disk.new ≡ grown disk.old last n }
{
    let none = [0u8; 1];
    write_sector(disk, n, 0, 0xFF, &none[..0]);
    let at = 256 * last;
    disk[at] = track_of(n) as u8;
    disk[at + 1] = sector_of(n) as u8;
    mark(disk, n, false);
}

// Writes a file's bytes and its entry.
pub fn put_file(disk: &mut [u8], p: usize, name: &[u8], image: &[u8], chosen: &[usize])
    requires { (length disk.old ≡ 174848) × (p + 30 ≤ 174848) × (length name.now ≤ 16) × Chosen chosen.now image.now }
    ensures { disk.new ≡ sets (marked_all (laid disk.old chosen.now image.now) chosen.now false) p (entry_bytes name.now chosen.now) }
{
    put_bytes(disk, chosen, image);
    put_entry(disk, p, name, chosen);
}

// Writes a file's bytes, and its entry in a sector by which the directory grows.
pub fn put_grown(
    disk: &mut [u8],
    last: usize,
    n: usize,
    name: &[u8],
    image: &[u8],
    chosen: &[usize],
)
    requires { (length disk.old ≡ 174848) × (last < 683) × (n < 683) × (length name.now ≤ 16) × Chosen chosen.now image.now }
    ensures { disk.new ≡ sets (grown (marked_all (laid disk.old chosen.now image.now) chosen.now false) last n) (256 * n + 2) (entry_bytes name.now chosen.now) }
{
    put_bytes(disk, chosen, image);
    grow(disk, last, n);
    put_entry(disk, 256 * n + 2, name, chosen);
}
