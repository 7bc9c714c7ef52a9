// The desk's looks at an image, or at the image that a text would have. ./moldthatch gives this program a command and words behind the three
// names of crate `desk`: what is read, what is written, and a free name beside that. Each answer comes from a proved call.
#![tactic(auto)]

mod finding;
mod places;
mod references;

use base_refusals::Refusal;
use desk::{input, names, options, output};
use image_readers::By;

const COMMAND: usize = names::WORDS;

// find: the line's number.
const NUMBER: usize = names::WORDS + 1;

// where: whether a text is read; for an image, whether by links.
const TEXT: usize = names::WORDS + 1;

const LINKS: usize = names::WORDS + 2;

fn write_index_in(rt: &HostRuntime, index: &mut [u8], image: &[u8]) {
    let outcome = image_index::write_index(image, index);
    output::answer(rt, outcome, index, b"");
}

fn write_index(rt: &HostRuntime, image: &[u8]) {
    // No image of 65,536 bytes has a longer one: a line takes five bytes there and four here, a jump two there and less than four here.
    let mut index = [0u8; 131_072];
    write_index_in(rt, &mut index, image);
}

// Looks at the image that the program was given.
fn look_at_given<F: FnOnce(&[u8])>(rt: &HostRuntime, look: F)
    requires { F.IsAlwaysCallable look }
{
    let mut image = [0u8; 65_536];
    let longer = Refusal::ImageTooLong { length: 65_537 };
    if let Some(count) = input::read_or_end(rt, longer, &mut image) {
        look(&image[..count]);
    }
}

fn find_given(rt: &HostRuntime) {
    if let Some(number) = options::number(rt, NUMBER) {
        look_at_given(rt, |image| finding::find(rt, image, number));
    }
}

fn show_places(rt: &HostRuntime) {
    if options::is_set(rt, TEXT) {
        places::show_given_text(rt);
    } else if options::is_set(rt, LINKS) {
        look_at_given(rt, |image| places::show_image(rt, image, By::Links));
    } else {
        look_at_given(rt, |image| places::show_image(rt, image, By::Terminators));
    }
}

fn work(rt: &HostRuntime, command: &[u8]) {
    match command {
        b"find" => find_given(rt),
        b"where" => show_places(rt),
        b"index" => look_at_given(rt, |image| write_index(rt, image)),
        _ => look_at_given(rt, |image| references::show(rt, image)),
    }
}

fn main(rt: HostRuntime) {
    let mut command = io::buffer();
    work(&rt, names::name(&rt, COMMAND, &mut command));
}
