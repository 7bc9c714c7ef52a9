// Counts of words over many images. Totals are 206 numbers that the caller lends and carries on; empty ones are all 0.
ghost use Rattle.std.specs.Prelude.{◌≡◌, get_or};
ghost use Rattle.count_tokens.specs.Tokens.{counted_tokens};
ghost use Rattle.count_totals.specs.TokenTotals.{is_totals, tokens_counted, share_of};
ghost use Rattle.count_images.specs.Carried.{with_image, joined, carried_answer};
ghost use Rattle.moldthatch.specs.Told.{told_totals, fate_code};

use base_refusals::Code;
use count_images::Carried;

// Takes one more image into totals.
#[unsafe(no_mangle)]
pub extern "C" fn moldthatch_count(totals: &mut [u64], image: &[u8]) -> Code
    ensures { record { code = result; buffer = totals.new } ≡ told_totals (with_image totals.old image.now) }
{
    carried_code(count_images::add_image(totals, image))
}

// Joins other totals to totals.
#[unsafe(no_mangle)]
pub extern "C" fn moldthatch_count_join(totals: &mut [u64], other: &[u64]) -> Code
    ensures { record { code = result; buffer = totals.new } ≡ told_totals (joined totals.old other.now) }
{
    carried_code(count_images::join(totals, other))
}

// How many tokens are counted in totals.
#[unsafe(no_mangle)]
pub extern "C" fn moldthatch_count_tokens(totals: &[u64]) -> u64
    ensures { result ≡ tokens_counted totals.now }
{
    count_totals::tokens(totals)
}

// A token's share of them, in thousandths.
#[unsafe(no_mangle)]
pub extern "C" fn moldthatch_count_share(totals: &[u64], token: u8) -> u64
    ensures { result ≡ share_of totals.now token }
{
    count_totals::share(totals, token)
}

// Whether numbers are totals that images can give.
#[unsafe(no_mangle)]
pub extern "C" fn moldthatch_count_are_totals(totals: &[u64]) -> bool
    ensures { result ≡ is_totals totals.now }
{
    count_totals::are_totals(totals)
}

// The tokens that are counted, by their place from 0; 0, which is no token, behind the last.
#[unsafe(no_mangle)]
pub extern "C" fn moldthatch_count_token_at(place: usize) -> u8
    ensures { result ≡ get_or counted_tokens place 0 }
{
    count_images::token_at(place)
}

fn carried_code(carried: Carried) -> Code
    ensures { result ≡ fate_code (carried_answer carried) }
{
    match carried {
        Carried::Taken => base_refusals::with_one(0, 0),
        Carried::Apart(refusal) => base_refusals::with_one(
            0,
            number_of(base_refusals::refusal_code(refusal)),
        ),
        Carried::Refused(refusal) => base_refusals::refusal_code(refusal),
        Carried::NoTotals => base_refusals::with_one(0, 255),
    }
}

fn number_of(code: Code) -> usize
    ensures { result ≡ code.number }
{
    usize::from(code.number)
}
