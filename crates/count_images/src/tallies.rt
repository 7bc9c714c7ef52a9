// The tokens of an image counted: each makes a mark in lent numbers (document 02, No. 12).
ghost use Rattle.std.specs.Prelude.{◌≡◌, ◌<◌, [], ◌∷◌, length};
ghost use Rattle.count_tokens.specs.Tokens.{counted_as, tokens_of, tokens_in};
ghost use Rattle.count_images.specs.Tallies.{tally, added};
ghost use Rattle.count_images.specs.TallyHelpers.{Raisable, Tallied};

use count_totals::TAKEN;
use image_readers::By;
use image_units::{Mode, Unit};
use list_texts::Texts;

// Counts the tokens of an image that reading accepts.
pub fn count_image(totals: &mut [u64], image: &[u8])
    requires { Raisable 1048576 totals.old }
    ensures { Tallied (tokens_in image.now) totals.old totals.new }
{
    let texts = list_texts::stored_texts();
    let mut offset: usize = 2;
    // An image that is accepted is refused nowhere.
    while let Ok(Some(line)) = image_readers::step_by(image, offset, By::Terminators) {
        count_body(totals, texts, &image[line.from..line.to]);
        offset = line.next;
    }
}

// Counts the tokens of a body.
fn count_body(totals: &mut [u64], texts: Texts, body: &[u8])
    requires { Raisable (length body.now) totals.old }
    ensures { totals.new ≡ added totals.old (tally (tokens_of body.now)) }
{
    let rules = count_tokens::count_rules();
    let mut i: usize = 0;
    let mut mode = Mode::Plain;
    while i < body.len() {
        let taken = image_units::unit_at(body, i, mode, rules);
        count_unit(totals, texts, taken.unit);
        i += taken.used;
        mode = taken.mode;
    }
}

// Counts a unit as its token, if it has one.
fn count_unit(totals: &mut [u64], texts: Texts, unit: Unit)
    requires { Raisable 1 totals.old }
    ensures { totals.new ≡ added totals.old (tally (counted_as unit)) }
{
    let k = count_tokens::token_of(texts, unit) as usize;
    if k < TAKEN {
        raise(totals, k);
    }
}

// Makes a mark: raises one of the totals by 1.
pub fn raise(totals: &mut [u64], k: usize)
    requires { (k < 206) × Raisable 1 totals.old }
    ensures { totals.new ≡ added totals.old (tally (k ∷ [])) }
{
    totals[k] += 1;
}
