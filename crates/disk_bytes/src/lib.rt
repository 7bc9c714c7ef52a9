// The bytes of a file: laid out over sectors, and taken out of them.
#![tactic(auto)]

ghost use Rattle.std.specs.Prelude.{◌≡◌, ◌+◌, ◌*◌, ◌-◌, ◌≤◌, ◌<◌, length};
ghost use Rattle.std.proofs.lemmas.List.Edits.{sets};
ghost use Rattle.disk_rules.specs.Calls.{sector_bytes, laid, payload, chain_bytes};
ghost use Rattle.disk_chains.specs.ChainHelpers.{Sectors};
ghost use Rattle.disk_bytes.specs.ByteHelpers.{Below, Lies};

use disk_sectors::{sector_of, track_of};

// Stores bytes from a place on.
pub fn store(out: &mut [u8], at: usize, text: &[u8])
    requires { at + length text.now ≤ length out.old }
    ensures { out.new ≡ sets out.old at text.now }
{
    out[at..at + text.len()].copy_from_slice(text);
}

// Writes a sector whole: its link, its bytes, and 00 to the end.
pub fn write_sector(disk: &mut [u8], n: usize, track: u8, second: u8, part: &[u8])
    requires { (length disk.old ≡ 174848) × (n < 683) × (length part.now ≤ 254) }
    ensures { disk.new ≡ sets disk.old (256 * n) (sector_bytes track second part.now) }
{
    let mut sector = [0u8; 256];
    sector[0] = track;
    sector[1] = second;
    store(&mut sector, 2, part);
    store(disk, 256 * n, &sector);
}

// Lays an image out over sectors, 254 bytes in each.
pub fn lay(disk: &mut [u8], list: &[usize], image: &[u8])
    requires { (length disk.old ≡ 174848) × Sectors list.now × (254 * (length list.now - 1) ≤ length image.now) × (length image.now ≤ 254 * length list.now) }
    ensures { disk.new ≡ laid disk.old list.now image.now }
{
    for i in 0..list.len() {
        let n = list[i];
        let from = 254 * i;
        if i + 1 < list.len() {
            let next = list[i + 1];
            let to = from + 254;
            let track = track_of(next) as u8;
            let sector = sector_of(next) as u8;
            write_sector(disk, n, track, sector, &image[from..to]);
        } else {
            let second = (1 + (image.len() - from)) as u8;
            write_sector(disk, n, 0, second, &image[from..]);
        }
    }
}

// How many bytes of a file a sector holds.
fn payload_length(disk: &[u8], n: usize) -> usize
    requires { 256 * n + 256 ≤ length disk.now }
    ensures { (result ≡ length (payload disk.now n)) × (result ≤ 254) }
{
    let at = 256 * n;
    if disk[at] == 0 {
        usize::from(disk[at + 1]).saturating_sub(1)
    } else {
        254
    }
}

// How many bytes the sectors of a chain hold.
pub fn measure(disk: &[u8], list: &[usize]) -> usize
    requires { Below disk.now list.now }
    ensures { result ≡ length (chain_bytes disk.now list.now) }
{
    let mut count: usize = 0;
    for n in list {
        count += payload_length(disk, *n);
    }
    count
}

// Stores the bytes of a chain's sectors at a buffer's start.
pub fn take_out(disk: &[u8], list: &[usize], out: &mut [u8])
    requires { Lies disk.now list.now × (length (chain_bytes disk.now list.now) ≤ length out.old) }
    ensures { out.new ≡ sets out.old 0 (chain_bytes disk.now list.now) }
{
    let mut to: usize = 0;
    for n in list {
        let from = 256 * n + 2;
        let end = from + payload_length(disk, *n);
        store(out, to, &disk[from..end]);
        to += end - from;
    }
}
