// Where the lines of an image stand, and for a text the text lines that they come from: the rows of crate `image_rows`.
ghost use Rattle.std.specs.Prelude.{◌≤◌, length};

use base_refusals::Refusal;
use crunch_rules::Options;
use desk::{input, names, options, output};
use image_readers::By;
use image_rows::places;

const DIALECT: usize = names::WORDS + 3;

const LOAD: usize = names::WORDS + 4;

fn show_rows(rt: &HostRuntime, rows: &mut [u8], image: &[u8], by: By, lines: &[usize]) {
    let outcome = places::lend_places(image, by, lines, rows);
    output::answer(rt, outcome, rows, b"");
}

fn show_lines(rt: &HostRuntime, image: &[u8], by: By, lines: &[usize]) {
    // An image of 65,536 bytes has at most 13,107 lines, and no row has more than 20 bytes.
    let mut rows = [0u8; 262_144];
    show_rows(rt, &mut rows, image, by, lines);
}

pub fn show_image(rt: &HostRuntime, image: &[u8], by: By) {
    show_lines(rt, image, by, &[]);
}

fn show_origins(rt: &HostRuntime, text: &[u8], image: &[u8]) {
    let mut lines = [0usize; 13_107];
    let count = crunch_origins::origins(text, &mut lines);
    show_lines(rt, image, By::Links, &lines[..count]);
}

fn show_text(rt: &HostRuntime, text: &[u8], options: Options)
    requires { length text.now ≤ 1048576 }
{
    let mut image = [0u8; 65_536];
    match crunch_image::crunch(text, options, &mut image) {
        Ok(n) => show_origins(rt, text, &image[..n]),
        Err(refusal) => output::refuse(rt, refusal, text),
    }
}

fn show_under(rt: &HostRuntime, options: Options) {
    let mut text = [0u8; 65_536];
    let longer = Refusal::TextTooLong { length: 65_537 };
    if let Some(count) = input::read_or_end(rt, longer, &mut text) {
        show_text(rt, &text[..count], options);
    }
}

// What the words ask for; nothing where the program has ended for one of them.
fn asked(rt: &HostRuntime) -> Option<Options> {
    let dialect = options::dialect(rt, DIALECT)?;
    Some(Options {
        load: options::load(rt, LOAD, dialect)?,
        dialect,
        profile: false,
        forms: false,
    })
}

pub fn show_given_text(rt: &HostRuntime) {
    if let Some(options) = asked(rt) {
        show_under(rt, options);
    }
}
