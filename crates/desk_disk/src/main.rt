// The desk's work on a disk image. ./moldthatch gives this program a command and words behind the three names of crate `desk`: the disk that
// is read, what is written, and a free name beside that. The disk is read whole and worked on in memory.
#![tactic(auto)]

mod saving;

ghost use Rattle.std.specs.Prelude.{◌≤◌, length};

use base_refusals::Refusal;
use desk::line::Line;
use desk::{input, names, output};
use disk_rules::Holding;

const COMMAND: usize = names::WORDS;

const NAME: usize = names::WORDS + 1;

// Writes the disk as a call left it, or says why that call was refused.
fn answer_changed(rt: &HostRuntime, changed: Result<(), Refusal>, disk: &[u8]) {
    output::answer(rt, changed.and(Ok(disk.len())), disk, b"");
}

// Makes a fresh disk with files on it, which ./moldthatch gives its name where that is not taken.
fn format(rt: &HostRuntime) {
    let mut disk = [0u8; 174_848];
    match disk::format(&mut disk) {
        Ok(()) => saving::save_files(rt, &mut disk, true),
        Err(refusal) => output::refuse(rt, refusal, b""),
    }
}

fn save(rt: &HostRuntime, disk: &mut [u8]) {
    match disk::check(disk) {
        Ok(_) => saving::save_files(rt, disk, false),
        Err(refusal) => output::refuse(rt, refusal, b""),
    }
}

// The name that a word stands for, at the start of a buffer.
fn given_name<'a>(rt: &HostRuntime, name: &'a mut [u8]) -> &'a [u8]
    ensures { length result.now ≤ length name.old }
{
    let mut text = io::buffer();
    let count = disk_names::given(names::name(rt, NAME, &mut text), name);
    &name[..count]
}

fn scratch(rt: &HostRuntime, disk: &mut [u8]) {
    // One byte more than a name may have: what is cut off does not make it one.
    let mut name = [0u8; 17];
    let changed = disk::scratch(disk, given_name(rt, &mut name));
    answer_changed(rt, changed, disk);
}

fn read_into(rt: &HostRuntime, file: &mut [u8], disk: &[u8], name: &[u8]) {
    let outcome = disk::read(disk, name, file);
    output::answer(rt, outcome, file, b"");
}

fn read_named(rt: &HostRuntime, disk: &[u8], name: &[u8]) {
    // No file is longer: 664 sectors of 254 bytes.
    let mut file = [0u8; 168_656];
    read_into(rt, &mut file, disk, name);
}

fn read(rt: &HostRuntime, disk: &[u8]) {
    let mut name = [0u8; 17];
    read_named(rt, disk, given_name(rt, &mut name));
}

fn show(rt: &HostRuntime, disk: &[u8]) {
    // No directory's text is longer: 144 lines of 69 bytes, and the last.
    let mut text = [0u8; 10_240];
    let outcome = disk_directory::put_directory(disk, &mut text);
    output::answer(rt, outcome, &text, b"");
}

// How many files a sound disk has, and how many sectors are free.
fn answer_check(rt: &HostRuntime, held: Holding) {
    let mut line = Line::<64>::new();
    line.put_decimal(held.files);
    line.put(if held.files == 1 {
        b" file, "
    } else {
        b" files, "
    });
    line.put_decimal(held.free);
    line.put(b" sectors free\n");
    let bytes = line.bytes();
    output::answer(rt, Ok(bytes.len()), bytes, b"");
}

fn check(rt: &HostRuntime, disk: &[u8]) {
    match disk::check(disk) {
        Ok(held) => answer_check(rt, held),
        Err(refusal) => output::refuse(rt, refusal, b""),
    }
}

fn work(rt: &HostRuntime, command: &[u8], disk: &mut [u8]) {
    match command {
        b"save" => save(rt, disk),
        b"scratch" => scratch(rt, disk),
        b"read" => read(rt, disk),
        b"dir" => show(rt, disk),
        _ => check(rt, disk),
    }
}

fn read_and_work(rt: &HostRuntime, command: &[u8]) {
    let mut disk = [0u8; 174_848];
    if let Some(count) = input::read_or_end(rt, Refusal::BadDisk, &mut disk) {
        work(rt, command, &mut disk[..count]);
    }
}

fn main(rt: HostRuntime) {
    let mut buf = io::buffer();
    match names::name(&rt, COMMAND, &mut buf) {
        b"format" => format(&rt),
        command => read_and_work(&rt, command),
    }
}
