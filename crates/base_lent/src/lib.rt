// A result that goes into a lent buffer: how long it is, or why there is none.
#![tactic(auto)]

ghost use Rattle.std.specs.Prelude.{◌≡◌};
ghost use Rattle.base_refusals.specs.Code.{length_code};
ghost use Rattle.base_refusals.specs.Answer.{answered};

use base_refusals::{Code, Refusal};

// The length that was made, or the refusal, as numbers.
pub fn outcome_code(outcome: Result<usize, Refusal>) -> Code
    ensures { result ≡ length_code (answered outcome) }
{
    match outcome {
        Ok(length) => base_refusals::with_one(0, length),
        Err(refusal) => base_refusals::refusal_code(refusal),
    }
}
