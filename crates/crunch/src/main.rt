// Crunches a text: standard input to standard output, or the files that it was given. Behind their names ./moldthatch puts the dialect's word, a word
// for each option, which is empty where it was not asked for, and the load address where one was asked for.
#![tactic(auto)]

ghost use Rattle.std.specs.Prelude.{◌≤◌, length};

use base_refusals::Refusal;
use crunch_rules::Options;
use desk::{input, names, options, output};

const DIALECT: usize = names::WORDS;

const FORMS: usize = names::WORDS + 1;

const PROFILE: usize = names::WORDS + 2;

const LOAD: usize = names::WORDS + 3;

fn crunch_text(rt: &HostRuntime, text: &[u8], options: Options)
    requires { length text.now ≤ 1048576 }
{
    // No image is longer: its last link is at most 0xFFFF.
    let mut image = [0u8; 65_536];
    let outcome = crunch_image::crunch(text, options, &mut image);
    output::answer(rt, outcome, &image, text);
}

fn crunch_given(rt: &HostRuntime, options: Options) {
    let mut text = [0u8; 65_536];
    let longer = Refusal::TextTooLong { length: 65_537 };
    if let Some(count) = input::read_or_end(rt, longer, &mut text) {
        crunch_text(rt, &text[..count], options);
    }
}

// What the words ask for; nothing where the program has ended for one of them.
fn asked(rt: &HostRuntime) -> Option<Options> {
    let dialect = options::dialect(rt, DIALECT)?;
    Some(Options {
        load: options::load(rt, LOAD, dialect)?,
        dialect,
        profile: options::is_set(rt, PROFILE),
        forms: options::is_set(rt, FORMS),
    })
}

fn main(rt: HostRuntime) {
    if let Some(options) = asked(&rt) {
        crunch_given(&rt, options);
    }
}
