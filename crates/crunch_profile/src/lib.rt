// The machine profile: the lines that the machine's own relinking and its editor take as they are.
#![tactic(auto)]

ghost use Rattle.std.specs.Prelude.{◌≡◌};
ghost use Rattle.crunch_profile.specs.Profile.{profile_says};
ghost use Rattle.base_refusals.specs.Answer.{answered};

use base_refusals::Refusal;

// Asks the profile about the line that the k-th text line gives: its number, of which `least` is the least that may stand there; whether its
// body holds a zero; and the body's length.
pub fn allow_line(
    k: usize,
    least: usize,
    number: u16,
    zero: bool,
    length: usize,
) -> Result<(), Refusal>
    ensures { answered result ≡ profile_says k least number zero length }
{
    let machine = image_limits::commodore_64();
    if image_limits::is_too_high(machine, number) {
        return Err(Refusal::NumberTooHigh { line: k });
    }
    if image_limits::is_not_ascending(least, number) {
        return Err(Refusal::NotAscending { line: k });
    }
    if zero {
        return Err(Refusal::ZeroInBody { line: k });
    }
    if image_limits::is_bad_length(machine, length) {
        return Err(Refusal::BodyLength { line: k });
    }
    Ok(())
}
