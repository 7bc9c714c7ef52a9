// Which words authors use: counts over programs for the yearbook. ./moldthatch gives it a letter for what it is given, images (i) or totals
// (t), one for what it writes, a table (t) or totals (s), and then the names. No contract can say what is read or written.
#![tactic(auto)]

mod table;
mod totals;

use count_images::Carried;
use desk::{input, output};
use desk_calls::words;
use desk_status::Status;

// The byte at a place of the first argument, if it has one.
fn letter(rt: &HostRuntime, place: usize) -> Option<u8> {
    let mut word = io::buffer();
    words::word(rt, 1, &mut word).get(place).copied()
}

// Takes one image into the totals, and names it on standard error where it is refused.
fn take_image(rt: &HostRuntime, name: &[u8], image: &[u8], totals: &mut [u64]) -> Status {
    match count_images::add_image(totals, image) {
        Carried::Taken => Status::Done,
        Carried::Apart(refusal) => desk_status::written(
            output::tell(rt, name, refusal),
            Status::Done,
        ),
        Carried::Refused(refusal) => desk_status::written(
            output::tell(rt, name, refusal),
            Status::Refused,
        ),
        Carried::NoTotals => Status::Failed,
    }
}

// Takes the image in the file that an argument names.
fn take_file(rt: &HostRuntime, argument: usize, image: &mut [u8], totals: &mut [u64]) -> Status {
    let mut buf = io::buffer();
    let name = words::word(rt, argument, &mut buf);
    match input::read_file(rt, name, image) {
        Ok(Some(count)) => take_image(rt, name, &image[..count], totals),
        // The buffer is longer than an image may be: what is in it is refused as too long.
        Ok(None) => take_image(rt, name, image, totals),
        Err(_) => Status::Failed,
    }
}

// Takes the files that the arguments from the second on name. What cannot be read is told, and the others are read all the same; behind 1,000
// images no other is taken.
fn take_files(rt: &HostRuntime, count: usize, image: &mut [u8], totals: &mut [u64]) -> Status {
    let mut status = Status::Done;
    for i in 2..count {
        let taken = take_file(rt, i, image, totals);
        status = desk_status::worse(status, taken);
        if taken == Status::Refused {
            return status;
        }
    }
    status
}

// Writes the totals as they are asked for; whether they could be written.
fn write(rt: &HostRuntime, totals: &[u64; 206]) -> bool {
    if letter(rt, 1) == Some(b's') {
        totals::write(rt, totals)
    } else {
        table::write(rt, totals)
    }
}

// Writes the number of the refusal in the place of a result: one image was too many.
fn refuse(rt: &HostRuntime) -> bool {
    table::write_number(rt, 26)
}

// Ends a run: the result, or the number of the refusal in its place, and the status.
fn finish(rt: &HostRuntime, status: Status, totals: &[u64; 206]) {
    let is_written = match status {
        Status::Done => write(rt, totals),
        Status::Refused => refuse(rt),
        Status::Misused | Status::Failed => true,
    };
    desk_status::tell(desk_status::written(is_written, status));
}

// Counts with a buffer for one image.
fn count_with(rt: &HostRuntime, image: &mut [u8]) {
    let mut totals = [0u64; 206];
    let count = words::count(rt);
    let status = if letter(rt, 0) == Some(b't') {
        totals::join_files(rt, count, &mut totals)
    } else {
        take_files(rt, count, image, &mut totals)
    };
    finish(rt, status, &totals);
}

fn main(rt: HostRuntime) {
    let mut image = [0u8; 1_048_577];
    count_with(&rt, &mut image);
}
