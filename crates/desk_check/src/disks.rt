// A disk: every program on it is checked, each under the disk's name and its own.
ghost use Rattle.std.specs.Prelude.{◌≡◌, ◌+◌, ◌≤◌, length};
ghost use Rattle.disk_entries.specs.EntryHelpers.{Entries};

use crate::check_program;
use crate::telling::Teller;
use base_refusals::Refusal;
use desk_status::Status;
use disk_check::look;
use disk_entries::name_at;
use disk_names::put_name;
use say_put::put_text;

// Checks the file of an entry, under a name.
fn check_named(tell: &Teller, disk: &[u8], p: usize) -> Status
    requires { (length disk.now ≡ 174848) × (p + 30 ≤ 174848) }
{
    // No file is longer: 664 sectors of 254 bytes.
    let mut file = [0u8; 168_656];
    match disk::read(disk, name_at(disk, p), &mut file) {
        Ok(count) => check_program(tell, &file[..count]),
        Err(refusal) => tell.tell_refusal(refusal),
    }
}

fn check_entry(tell: &Teller, disk: &[u8], p: usize) -> Status
    requires { (length disk.now ≡ 174848) × (p + 30 ≤ 174848) }
{
    let mut full = [0u8; 4352];
    let comma = put_text(&mut full, 0, tell.name);
    let from = put_text(&mut full, comma, b", ");
    let n = put_name(&mut full, from, name_at(disk, p));
    check_named(
        &Teller {
            name: &full[..n],
            ..*tell
        },
        disk,
        p,
    )
}

fn check_entries(tell: &Teller, disk: &[u8], files: &[usize]) -> Status
    requires { (length disk.now ≡ 174848) × Entries files.now }
{
    let mut run = Status::Done;
    for p in files {
        run = desk_status::worse(run, check_entry(tell, disk, *p));
        if run == Status::Failed {
            return run;
        }
    }
    run
}

pub fn check_disk(tell: &Teller, disk: &[u8]) -> Status
    requires { length disk.now ≡ 174848 }
{
    let mut sectors = [0usize; 18];
    let mut files = [0usize; 144];
    let Some(seen) = look(disk, &mut sectors, &mut files) else {
        return tell.tell_refusal(Refusal::BadDisk);
    };
    let count = seen.files;
    let run = check_entries(tell, disk, &files[..count]);
    tell.tell_disk(count, run)
}
