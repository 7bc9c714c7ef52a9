// Lists programs, each to a file of its own in a folder. ./moldthatch gives the folder in the place of OUT, and a free name in it, under which each
// listing is written before it is whole. Behind these stand the dialect's word and two flags, as for `list`, and then the names. No
// contract can say what is read or written.
#![tactic(auto)]

mod naming;

use base_refusals::Refusal;
use desk::{input, names, options, output, result};
use desk_calls::words;
use desk_status::Status;
use list_options::ListOptions;

// The first of the files.
const FILES: usize = names::WORDS + 3;

fn write_listing(
    rt: &HostRuntime,
    argument: usize,
    file: &[u8],
    image: &[u8],
    options: ListOptions,
) -> bool {
    let mut buf = io::buffer();
    let Some(to) = result::begin(rt, naming::listing_name(rt, file, &mut buf)) else {
        return false;
    };
    let mut out = [0u8; 8192];
    let written = desk_lines::write_lines(rt, &to, image, options, &mut out);
    result::finish_among(rt, to, written, argument)
}

fn refuse(rt: &HostRuntime, file: &[u8], refusal: Refusal) -> Status {
    desk_status::written(output::tell(rt, file, refusal), Status::Refused)
}

// Nothing is written before the whole image is known to have a listing.
fn list_image(
    rt: &HostRuntime,
    argument: usize,
    file: &[u8],
    image: &[u8],
    options: ListOptions,
) -> Status {
    match image_readers::check_by(image, options.by) {
        Ok(_) => desk_status::written(
            write_listing(rt, argument, file, image, options),
            Status::Done,
        ),
        Err(refusal) => refuse(rt, file, refusal),
    }
}

fn list_file(rt: &HostRuntime, argument: usize, image: &mut [u8], options: ListOptions) -> Status {
    let mut buf = io::buffer();
    let file = names::name(rt, argument, &mut buf);
    match input::read_file(rt, file, image) {
        Ok(Some(count)) => list_image(rt, argument, file, &image[..count], options),
        Ok(None) => refuse(rt, file, Refusal::ImageTooLong { length: 65_537 }),
        Err(_) => Status::Failed,
    }
}

// Whatever a file comes to, the others are listed all the same.
fn list_files(rt: &HostRuntime, image: &mut [u8], options: ListOptions) -> Status {
    let mut status = Status::Done;
    for i in FILES..words::count(rt) {
        status = desk_status::worse(status, list_file(rt, i, image, options));
    }
    status
}

fn list_all(rt: &HostRuntime, options: ListOptions) {
    let mut image = [0u8; 65_536];
    desk_status::tell(list_files(rt, &mut image, options));
}

fn main(rt: HostRuntime) {
    if let Some(dialect) = options::dialect(&rt, desk_lines::DIALECT) {
        list_all(&rt, desk_lines::asked(&rt, dialect));
    }
}
