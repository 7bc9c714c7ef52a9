// Files onto a disk. Each word behind the command is FILE=NAME or FILE. Where one of them is refused, or cannot be read, nothing is written.
use base_refusals::Refusal;
use desk::{input, names, output, result};
use desk_calls::words;

const FILES: usize = names::WORDS + 1;

// Whether a file was saved; where it was not, the program has ended.
fn is_saved(rt: &HostRuntime, file: &[u8], changed: Result<(), Refusal>) -> bool {
    changed
        .inspect_err(|refusal| output::refuse_for(rt, file, *refusal))
        .is_ok()
}

fn save_file(rt: &HostRuntime, disk: &mut [u8], file: &[u8], name: &[u8]) -> bool {
    // One byte more than 664 sectors hold: a longer file is refused as its beginning is.
    let mut image = [0u8; 168_657];
    match input::read_file(rt, file, &mut image) {
        Ok(Some(count)) => is_saved(rt, file, disk::save(disk, name, &image[..count])),
        // A file that was cut is never saved.
        Ok(None) => is_saved(
            rt,
            file,
            disk::save(disk, name, &image).and(Err(Refusal::DiskFull)),
        ),
        Err(_) => {
            output::fail(rt);
            false
        }
    }
}

fn save_word(rt: &HostRuntime, disk: &mut [u8], argument: usize) -> bool {
    let mut buf = io::buffer();
    let word = names::name(rt, argument, &mut buf);
    // One byte more than a name may have: what is cut off does not make it one.
    let mut name = [0u8; 17];
    let length = disk_names::given(disk_names::text_of(word), &mut name);
    save_file(rt, disk, disk_names::file_of(word), &name[..length])
}

fn save_words(rt: &HostRuntime, disk: &mut [u8]) -> bool {
    for i in FILES..words::count(rt) {
        if !save_word(rt, disk, i) {
            return false;
        }
    }
    true
}

// Saves all files on the disk, and writes it, as a new one or in its own place.
pub fn save_files(rt: &HostRuntime, disk: &mut [u8], is_new: bool) {
    if save_words(rt, disk) {
        let written = if is_new {
            result::write_new(rt, disk)
        } else {
            result::write_whole(rt, disk)
        };
        output::done(rt, written);
    }
}
