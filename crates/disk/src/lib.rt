// The calls over a lent disk: formatting, the check, reading, scratching and saving.
#![tactic(auto)]

ghost use Rattle.std.specs.Prelude.{◌≡◌, true, ◌+◌, ◌≤◌, length, set};
ghost use Rattle.base_refusals.specs.Answer.{done, answered};
ghost use Rattle.base_lent.specs.Lent.{into_buffer, left};
ghost use Rattle.disk_rules.specs.CountedHelpers.{chain_of_within};
ghost use Rattle.disk_rules.specs.Free.{marked_all};
ghost use Rattle.disk_rules.specs.Calls.{is_file_name, disk_holding, chain_bytes, file_bytes, formatted, scratched, saved, onto_disk, leaving};
ghost use Rattle.disk.specs.LocateHelpers.{Locates, Seeks};

use base_refusals::Refusal;
use disk_bytes::{measure, store, take_out};
use disk_chains::{free_sectors, mark_all};
use disk_check::look;
use disk_entries::{find, trace_entry};
use disk_rules::Holding;
use disk_saves::save_new;

// What 18/0 begins with: the first directory sector, the format, the map, and a name and an id of A0.
const HEADER: [u8; 171] = *b"\x12\x01\x41\x00\
\x15\xFF\xFF\x1F\x15\xFF\xFF\x1F\x15\xFF\xFF\x1F\x15\xFF\xFF\x1F\x15\xFF\xFF\x1F\x15\xFF\xFF\x1F\
\x15\xFF\xFF\x1F\x15\xFF\xFF\x1F\x15\xFF\xFF\x1F\x15\xFF\xFF\x1F\x15\xFF\xFF\x1F\x15\xFF\xFF\x1F\
\x15\xFF\xFF\x1F\x15\xFF\xFF\x1F\x15\xFF\xFF\x1F\x15\xFF\xFF\x1F\x15\xFF\xFF\x1F\
\x11\xFC\xFF\x07\
\x13\xFF\xFF\x07\x13\xFF\xFF\x07\x13\xFF\xFF\x07\x13\xFF\xFF\x07\x13\xFF\xFF\x07\x13\xFF\xFF\x07\
\x12\xFF\xFF\x03\x12\xFF\xFF\x03\x12\xFF\xFF\x03\x12\xFF\xFF\x03\x12\xFF\xFF\x03\x12\xFF\xFF\x03\
\x11\xFF\xFF\x01\x11\xFF\xFF\x01\x11\xFF\xFF\x01\x11\xFF\xFF\x01\x11\xFF\xFF\x01\
\xA0\xA0\xA0\xA0\xA0\xA0\xA0\xA0\xA0\xA0\xA0\xA0\xA0\xA0\xA0\xA0\xA0\xA0\xA0\xA0\xA0\
2A\xA0\xA0\xA0\xA0";

// What 18/1 begins with: the end of the directory's chain.
const LAST: [u8; 2] = [0x00, 0xFF];

// What is known of a sound disk and a name: how many sectors the directory has, how many files are listed, and the first with the name.
#[derive(Clone, Copy)]
struct Sought {
    sectors: usize,
    files: usize,
    entry: Option<usize>,
}

// Formats a disk of the right length.
pub fn format(disk: &mut [u8]) -> Result<(), Refusal>
    ensures { leaving result disk.new ≡ onto_disk (formatted disk.old) disk.old }
{
    if disk.len() != 174848 {
        return Err(Refusal::BadDisk);
    }
    disk.fill(0);
    store(disk, 91392, &HEADER);
    store(disk, 91648, &LAST);
    Ok(())
}

// Checks a disk, and answers how many files it lists and how many sectors off track 18 are free.
pub fn check(disk: &[u8]) -> Result<Holding, Refusal>
    ensures { answered result ≡ disk_holding disk.now }
{
    if disk.len() != 174848 {
        return Err(Refusal::BadDisk);
    }
    let mut sectors = [0usize; 18];
    let mut files = [0usize; 144];
    let Some(seen) = look(disk, &mut sectors, &mut files) else {
        return Err(Refusal::BadDisk);
    };
    let mut list = [0usize; 683];
    let free = free_sectors(disk, &mut list);
    Ok(Holding {
        files: seen.files,
        free,
    })
}

pub fn is_name(name: &[u8]) -> bool
    ensures { result ≡ is_file_name name.now }
{
    matches!(name.len(), 1..=16) && !name.contains(&0xA0)
}

// Looks at a disk, and for a name on it: 20 and 21, which every call with a name tests first.
fn seek(disk: &[u8], name: &[u8], sectors: &mut [usize]) -> Result<Sought, Refusal>
    requires { length sectors.old ≡ 18 }
    ensures { Seeks disk.now name.now result sectors.new }
{
    if disk.len() != 174848 {
        return Err(Refusal::BadDisk);
    }
    let mut files = [0usize; 144];
    let Some(seen) = look(disk, sectors, &mut files) else {
        return Err(Refusal::BadDisk);
    };
    if !is_name(name) {
        return Err(Refusal::BadName);
    }
    let count = seen.files;
    let entry = find(disk, &files[..count], name);
    Ok(Sought {
        sectors: seen.sectors,
        files: count,
        entry,
    })
}

// The entry of a name on a disk.
fn locate(disk: &[u8], name: &[u8]) -> Result<usize, Refusal>
    ensures { Locates disk.now name.now result }
{
    let mut sectors = [0usize; 18];
    let sought = seek(disk, name, &mut sectors)?;
    sought.entry.ok_or(Refusal::NoSuchFile)
}

// Reads a file into the start of a buffer, and answers its length.
pub fn read(disk: &[u8], name: &[u8], out: &mut [u8]) -> Result<usize, Refusal>
    ensures { left result out.new ≡ into_buffer (file_bytes disk.now name.now) out.old }
{
    let p = locate(disk, name)?;
    read_entry(disk, p, out)
}

fn read_entry(disk: &[u8], p: usize, out: &mut [u8]) -> Result<usize, Refusal>
    requires { (length disk.now ≡ 174848) × (p + 30 ≤ 174848) }
    ensures { left result out.new ≡ into_buffer (done (chain_bytes disk.now (chain_of_within 683 disk.now p).sectors)) out.old }
{
    let mut log = [0usize; 683];
    let traced = trace_entry(disk, p, &mut log, 0);
    let to = traced.to;
    let needed = measure(disk, &log[..to]);
    if needed > out.len() {
        return Err(Refusal::NoRoom { needed });
    }
    take_out(disk, &log[..to], out);
    Ok(needed)
}

// Scratches a file.
pub fn scratch(disk: &mut [u8], name: &[u8]) -> Result<(), Refusal>
    ensures { leaving result disk.new ≡ onto_disk (scratched disk.old name.now) disk.old }
{
    let p = locate(disk, name)?;
    scratch_entry(disk, p);
    Ok(())
}

fn scratch_entry(disk: &mut [u8], p: usize)
    requires { (length disk.old ≡ 174848) × (p + 30 ≤ 174848) }
    ensures { disk.new ≡ marked_all (set disk.old p 0) (chain_of_within 683 disk.old p).sectors true }
{
    let mut log = [0usize; 683];
    let traced = trace_entry(disk, p, &mut log, 0);
    let to = traced.to;
    disk[p] = 0;
    mark_all(disk, &log[..to], true);
}

// Saves a file on the lowest free sectors.
pub fn save(disk: &mut [u8], name: &[u8], image: &[u8]) -> Result<(), Refusal>
    ensures { leaving result disk.new ≡ onto_disk (saved disk.old name.now image.now) disk.old }
{
    let mut sectors = [0usize; 18];
    let sought = seek(disk, name, &mut sectors)?;
    if sought.entry.is_some() {
        return Err(Refusal::NameTaken);
    }
    if sought.files > 143 {
        return Err(Refusal::DirectoryFull);
    }
    let k = sought.sectors;
    save_new(disk, &sectors[..k], name, image)
}
