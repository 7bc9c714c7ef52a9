// Lists an image: standard input to standard output, or the files that it was given. The listing is written line by line, a long line in
// stretches. Behind the names ./moldthatch puts the dialect's word and two flags: remarks as text, and the reader by links.
#![tactic(auto)]

use base_refusals::Refusal;
use desk::{input, options, output, result};
use list_options::ListOptions;

fn write_listing(rt: &HostRuntime, image: &[u8], options: ListOptions) -> bool {
    let mut buf = io::buffer();
    let Some(to) = result::begin(rt, result::name(rt, &mut buf)) else {
        return false;
    };
    let mut out = [0u8; 8192];
    let written = desk_lines::write_lines(rt, &to, image, options, &mut out);
    result::finish(rt, to, written)
}

// Nothing is written before the whole image is known to have a listing.
fn list_image(rt: &HostRuntime, image: &[u8], options: ListOptions) {
    match image_readers::check_by(image, options.by) {
        Ok(_) => output::done(rt, write_listing(rt, image, options)),
        Err(refusal) => output::refuse(rt, refusal, b""),
    }
}

fn list_given(rt: &HostRuntime, options: ListOptions) {
    let mut image = [0u8; 65_536];
    let longer = Refusal::ImageTooLong { length: 65_537 };
    if let Some(count) = input::read_or_end(rt, longer, &mut image) {
        list_image(rt, &image[..count], options);
    }
}

fn main(rt: HostRuntime) {
    if let Some(dialect) = options::dialect(&rt, desk_lines::DIALECT) {
        list_given(&rt, desk_lines::asked(&rt, dialect));
    }
}
