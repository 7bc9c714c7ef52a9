// Which words are used: how often each token stands in images (document 02, No. 12).
//
// Totals are 206 numbers that the caller lends and carries from image to image. 206 zeros are the totals of no images (`no_images`,
// proofs/Thousand.antt). What stands where in them, and each token's share, is `count_totals`.
#![tactic(auto)]

ghost use Rattle.std.specs.Prelude.{◌≡◌, get_or};
ghost use Rattle.count_tokens.specs.Tokens.{tokens_in, counted_tokens};
ghost use Rattle.count_totals.specs.TotalsHelpers.{Small};
ghost use Rattle.count_images.specs.Tallies.{added};
ghost use Rattle.count_images.specs.TallyHelpers.{Raisable};
ghost use Rattle.count_images.specs.Carried.{carried, with_marks, with_image, joined};

use crate::tallies::{count_image, raise};
use base_refusals::Refusal;
use count_totals::{MOST_IMAGES, REFUSED, TAKEN, are_totals};
use image_readers::By;

mod tallies;

// The tokens that are counted: those of V2, then those of TSB, each ascending.
pub const TOKENS: [u8; 197] =
    *b"\x80\x81\x82\x83\x84\x85\x86\x87\x88\x89\x8A\x8B\x8C\x8D\x8E\x8F\x90\x91\x92\x93\x94\x95\x96\x97\x98\x99\x9A\x9B\x9C\x9D\x9E\x9F\xA0\xA1\xA2\xA3\xA4\xA5\xA6\xA7\xA8\xA9\xAA\xAB\xAC\xAD\xAE\xAF\xB0\xB1\xB2\xB3\xB4\xB5\xB6\xB7\xB8\xB9\xBA\xBB\xBC\xBD\xBE\xBF\xC0\xC1\xC2\xC3\xC4\xC5\xC6\xC7\xC8\xC9\xCA\xCB\x01\x02\x03\x04\x05\x06\x07\x08\x09\x0A\x0B\x0C\x0D\x0E\x0F\x10\x11\x12\x13\x14\x15\x16\x17\x18\x19\x1A\x1B\x1C\x1D\x1E\x1F\x20\x21\x22\x23\x24\x25\x26\x27\x28\x29\x2C\x2E\x30\x31\x32\x33\x34\x35\x36\x37\x38\x39\x3A\x3B\x3C\x3D\x3E\x40\x41\x42\x43\x44\x45\x46\x47\x48\x49\x4A\x4B\x4C\x4D\x4E\x4F\x50\x51\x52\x53\x54\x55\x56\x57\x58\x59\x5A\x5B\x5C\x5D\x5F\x60\x61\x62\x63\x64\x65\x66\x67\x68\x69\x6A\x6B\x6C\x6D\x6E\x6F\x70\x71\x72\x73\x74\x75\x76\x77\x78\x79\x7A\x7B\x7C\x7D\x7E\x7F";

// What carrying totals on came to.
#[derive(Clone, Copy)]
pub enum Carried {
    // The image's tokens are counted, or the other totals are joined.
    Taken,
    // The image is counted apart: reading by terminators refuses it.
    Apart(Refusal),
    // The totals are as they were.
    Refused(Refusal),
    // The numbers are no totals: no images give them. They are as they were.
    NoTotals,
}

// Takes one more image into the totals.
pub fn add_image(totals: &mut [u64], image: &[u8]) -> Carried
    ensures { carried result totals.new ≡ with_image totals.old image.now }
{
    if !are_totals(totals) {
        return Carried::NoTotals;
    }
    if totals[TAKEN] >= MOST_IMAGES {
        return Carried::Refused(Refusal::TooManyImages);
    }
    take_image(totals, image)
}

// Joins the totals of other images to the totals.
pub fn join(totals: &mut [u64], other: &[u64]) -> Carried
    ensures { carried result totals.new ≡ joined totals.old other.now }
{
    if !are_totals(totals) {
        return Carried::NoTotals;
    }
    if !are_totals(other) {
        return Carried::NoTotals;
    }
    if totals[TAKEN] + other[TAKEN] > MOST_IMAGES {
        return Carried::Refused(Refusal::TooManyImages);
    }
    add_all(totals, other);
    Carried::Taken
}

// The tokens that are counted, by their place from 0: those of V2, then those of TSB; 0, which is no token, behind the last.
pub fn token_at(place: usize) -> u8
    ensures { result ≡ get_or counted_tokens place 0 }
{
    if place < 197 {
        return TOKENS[place];
    }
    0
}

// Adds other totals, place by place.
fn add_all(totals: &mut [u64], other: &[u64])
    requires { Small totals.old × Small other.now }
    ensures { totals.new ≡ added totals.old other.now }
{
    for (k, more) in other.iter().enumerate() {
        totals[k] += *more;
    }
}

fn take_image(totals: &mut [u64], image: &[u8]) -> Carried
    requires { Raisable 1048577 totals.old }
    ensures { carried result totals.new ≡ with_marks totals.old (tokens_in image.now) }
{
    raise(totals, TAKEN);
    match image_readers::check_by(image, By::Terminators) {
        Ok(_) => {
            count_image(totals, image);
            Carried::Taken
        }
        Err(refusal) => {
            raise(totals, REFUSED);
            Carried::Apart(refusal)
        }
    }
}
