// Whether programs and disks are fit for the master. ./moldthatch gives it a letter, v where it is to say what it finds and q where it is
// not, and then the names. All that decides is called; here bytes and words are carried. No contract can say what is read or written.
#![tactic(auto)]

mod disks;
mod telling;

use desk::input;
use desk_calls::words;
use desk_status::Status;
use image_readers::links;
use std::io::Result;
use telling::Teller;

// How many bytes a disk image has.
const DISK: usize = 174_848;

// Walks over the faults of an image that was read, and says each.
fn walk(tell: &Teller, image: &[u8]) -> Status {
    let mut marked = [0u8; 65536];
    image_marks::mark_numbers(image, &mut marked);
    let mut place = image_fitness::first();
    let mut run = Status::Done;
    while let Some(found) = image_fitness::next_fault(image, &marked, place) {
        run = desk_status::worse(run, tell.tell_fault(found.fault));
        if run == Status::Failed {
            return run;
        }
        place = found.place;
    }
    run
}

// Checks a program.
pub fn check_program(tell: &Teller, image: &[u8]) -> Status {
    match links::check(image) {
        Ok(overview) => tell.tell_program(overview, walk(tell, image)),
        Err(refusal) => tell.tell_refusal(refusal),
    }
}

fn check_bytes(tell: &Teller, bytes: &[u8]) -> Status {
    if bytes.len() == DISK {
        disks::check_disk(tell, bytes)
    } else {
        check_program(tell, bytes)
    }
}

// Checks the file that an argument names.
fn check_file(rt: &HostRuntime, argument: usize, buf: &mut [u8], is_quiet: bool) -> Result<Status> {
    let mut word = io::buffer();
    let name = words::word(rt, argument, &mut word);
    let tell = Teller { rt, name, is_quiet };
    match input::read_file(rt, name, buf)? {
        Some(count) => Ok(check_bytes(&tell, &buf[..count])),
        // The buffer is longer than an image may be: what is in it is refused as too long.
        None => Ok(check_program(&tell, buf)),
    }
}

// Checks the files that the arguments from the second on name.
fn check_files(rt: &HostRuntime, buf: &mut [u8], is_quiet: bool) -> Status {
    let mut status = Status::Done;
    for i in 2..words::count(rt) {
        match check_file(rt, i, buf, is_quiet) {
            // Standard output is closed or full: nothing more can be said.
            Ok(Status::Failed) => return Status::Failed,
            Ok(came) => status = desk_status::worse(status, came),
            // What cannot be read is told, and the others are checked all the same.
            Err(_) => status = Status::Failed,
        }
    }
    status
}

// Whether the first argument is the letter q.
fn is_quiet(rt: &HostRuntime) -> bool {
    let mut word = io::buffer();
    words::word(rt, 1, &mut word) == b"q".as_slice()
}

fn main(rt: HostRuntime) {
    let mut buf = [0u8; 1_048_577];
    desk_status::tell(check_files(&rt, &mut buf, is_quiet(&rt)));
}
