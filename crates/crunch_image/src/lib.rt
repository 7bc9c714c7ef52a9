// A text, crunched to an image.
#![tactic(auto)]

ghost use Rattle.std.specs.Prelude.{◌≡◌};
ghost use Rattle.base_lent.specs.Lent.{into_buffer, room_for, left};
ghost use Rattle.body_rules.specs.Lexicon.{lexicon};
ghost use Rattle.crunch_rules.specs.Crunched.{crunched};
ghost use Rattle.guess.specs.Guess.{word_sets};
ghost use Rattle.word_match.specs.Sets.{with_forms};
ghost use Rattle.crunch_rules.specs.Measured.{line_measured};
ghost use Rattle.crunch_rules.specs.PassesHelpers.{text_image};
ghost use Rattle.crunch_image.specs.CallHelpers.{MeasuredAs};
ghost use Rattle.base_refusals.specs.Answer.{answered};

use base_refusals::Refusal;
use crunch_measure::Pass;
use crunch_rules::{MeasuredLine, Options};
use guess::resolve;
use word_match::sets;
use word_match::sets::Sets;
use word_tables::{Words, spellings};

mod bound;

// Crunches a text into the start of a buffer, and answers the image's length.
pub fn crunch(text: &[u8], options: Options, out: &mut [u8]) -> Result<usize, Refusal>
    ensures { left result out.new ≡ into_buffer (crunched options text.now) out.old }
{
    text_domain::check_text(text)?;
    let words = spellings::stored_words();
    let sets = text_sets(text, options, words);
    into_buffer(out, text, options, words, sets)
}

// The room that the image of a text needs.
pub fn room(text: &[u8], options: Options) -> Result<usize, Refusal>
    ensures { answered result ≡ room_for (crunched options text.now) }
{
    let pass = measured(text, options, 0)?;
    Ok(pass.room)
}

// The line at a place from 1. The text is measured whole: one that is refused has no line.
pub fn measured_line(
    text: &[u8],
    options: Options,
    place: usize,
) -> Result<Option<MeasuredLine>, Refusal>
    ensures { answered result ≡ line_measured options place text.now }
{
    let pass = measured(text, options, place)?;
    Ok(pass.line)
}

// Checks a text and measures it.
fn measured(text: &[u8], options: Options, place: usize) -> Result<Pass, Refusal>
    ensures { MeasuredAs options place text.now result }
{
    text_domain::check_text(text)?;
    let words = spellings::stored_words();
    let sets = text_sets(text, options, words);
    crunch_measure::measure(text, options, place, words, sets)
}

// The words that are looked for in a text.
fn text_sets(text: &[u8], options: Options, words: Words) -> Sets
    ensures { result ≡ with_forms options.forms (word_sets options.dialect text.now) }
{
    let guessed = resolve::word_sets(text, options.dialect, words);
    sets::with_forms(guessed, options.forms)
}

// Where the bound does not settle that there is room, the image is measured first, so that a buffer that is too small is left as it is. Only
// measuring asks the profile; a text that it accepts is written as without it.
fn into_buffer(
    out: &mut [u8],
    text: &[u8],
    options: Options,
    words: Words,
    sets: Sets,
) -> Result<usize, Refusal>
    ensures { left result out.new ≡ into_buffer (text_image options.profile (lexicon sets) options.load text.now) out.old }
{
    let load = options.load;
    if !options.profile && bound::fits(text, load, out.len(), words, sets) {
        return Ok(crunch_write::write(out, text, load, words, sets));
    }
    let needed = crunch_measure::measure(text, options, 0, words, sets)?.room;
    if needed > out.len() {
        return Err(Refusal::NoRoom { needed });
    }
    Ok(crunch_write::write(out, text, load, words, sets))
}
