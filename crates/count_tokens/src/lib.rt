// Which tokens of a body count (document 02, No. 12).
#![tactic(auto)]

ghost use Rattle.std.specs.Prelude.{◌≡◌};
ghost use Rattle.count_tokens.specs.Tokens.{count_rules, counted_as};
ghost use Rattle.count_tokens.specs.TokenHelpers.{only};

use image_units::{Rules, Unit};
use list_texts::Texts;

// What counting heeds.
pub fn count_rules() -> Rules
    ensures { result ≡ count_rules }
{
    Rules {
        prefix: true,
        remarks: true,
        items: false,
        basic35: false,
    }
}

// The token that a unit counts as; FF, which is no token, where it counts as none.
#[tactic(auto, using(crate::proofs::UnitTokens::pair_token, crate::proofs::UnitTokens::pair_none))]
pub fn token_of(texts: Texts, unit: Unit) -> u8
    ensures { only result ≡ counted_as unit }
{
    match unit {
        Unit::Char(_) => 0xFF,
        Unit::Token(b) => b,
        Unit::Token35(_) => 0xFF,
        Unit::Pair(b) => {
            if list_spelling::tsb_word(texts, b).len() > 0 {
                return list_spelling::tsb_id(b);
            }
            0xFF
        }
        Unit::Lone => 0xFF,
        Unit::Remarked(_) => 0xFF,
    }
}
