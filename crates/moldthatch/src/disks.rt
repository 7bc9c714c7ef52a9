// Disk images: 174,848 bytes that the caller lends. A refusal changes no byte of them.
ghost use Rattle.std.specs.Prelude.{◌≡◌};
ghost use Rattle.base_lent.specs.Lent.{into_buffer};
ghost use Rattle.disk_rules.specs.Calls.{formatted, saved, scratched, file_bytes, disk_holding, onto_disk};
ghost use Rattle.say_put.specs.Clipped.{Clipped};
ghost use Rattle.disk_names.specs.Names.{name_given};
ghost use Rattle.moldthatch.specs.Told.{told_code, bare_code, told_disk, holding_code, shown_directory};
ghost use Rattle.base_refusals.specs.Answer.{answered};

use base_refusals::{Code, Refusal};
use disk_rules::Holding;

// Makes a disk without files.
#[unsafe(no_mangle)]
pub extern "C" fn moldthatch_disk_format(disk: &mut [u8]) -> Code
    ensures { record { code = result; buffer = disk.new } ≡ told_disk (onto_disk (formatted disk.old) disk.old) }
{
    changed_code(disk::format(disk))
}

// Saves an image under a name.
#[unsafe(no_mangle)]
pub extern "C" fn moldthatch_disk_save(disk: &mut [u8], name: &[u8], image: &[u8]) -> Code
    ensures { record { code = result; buffer = disk.new } ≡ told_disk (onto_disk (saved disk.old name.now image.now) disk.old) }
{
    changed_code(disk::save(disk, name, image))
}

// Reads the file of a name into the start of a buffer: its length.
#[unsafe(no_mangle)]
pub extern "C" fn moldthatch_disk_read(disk: &[u8], name: &[u8], out: &mut [u8]) -> Code
    ensures { record { code = result; buffer = out.new } ≡ told_code (into_buffer (file_bytes disk.now name.now) out.old) }
{
    base_lent::outcome_code(disk::read(disk, name, out))
}

// Scratches the file of a name.
#[unsafe(no_mangle)]
pub extern "C" fn moldthatch_disk_scratch(disk: &mut [u8], name: &[u8]) -> Code
    ensures { record { code = result; buffer = disk.new } ≡ told_disk (onto_disk (scratched disk.old name.now) disk.old) }
{
    changed_code(disk::scratch(disk, name))
}

// Checks a disk: how many files it has, and how many sectors are free.
#[unsafe(no_mangle)]
pub extern "C" fn moldthatch_disk_check(disk: &[u8]) -> Code
    ensures { result ≡ holding_code (disk_holding disk.now) }
{
    match disk::check(disk) {
        Ok(Holding { files, free }) => Code {
            number: 0,
            count: 2,
            first: files,
            second: free,
        },
        Err(refusal) => base_refusals::refusal_code(refusal),
    }
}

// Stores a disk's directory as a text at the start of a buffer, as much of it as fits: how many bytes that are.
#[unsafe(no_mangle)]
pub extern "C" fn moldthatch_disk_directory(disk: &[u8], out: &mut [u8]) -> Code
    ensures { record { code = result; buffer = out.new } ≡ shown_directory disk.now out.old }
{
    base_lent::outcome_code(disk_directory::put_directory(disk, out))
}

// Stores the name that a text stands for at the start of a buffer, as much of it as fits: how many bytes that are.
#[unsafe(no_mangle)]
pub extern "C" fn moldthatch_disk_name(text: &[u8], out: &mut [u8]) -> usize
    ensures { Clipped out.old 0 (name_given text.now) result out.new }
{
    disk_names::given(text, out)
}

fn changed_code(changed: Result<(), Refusal>) -> Code
    ensures { result ≡ bare_code (answered changed) }
{
    match changed {
        Ok(()) => Code {
            number: 0,
            count: 0,
            first: 0,
            second: 0,
        },
        Err(refusal) => base_refusals::refusal_code(refusal),
    }
}
