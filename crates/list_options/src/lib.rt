// How an image is listed, and what a walk over a body then heeds.
#![tactic(auto)]

ghost use Rattle.std.specs.Prelude.{◌≡◌};
ghost use Rattle.list_options.specs.Modes.{heeds_prefix, rules_under, original_options};

use image_readers::By;
use image_units::Rules;
use word_dialects::Dialect;

#[derive(Clone, Copy)]
pub struct ListOptions {
    pub dialect: Dialect,
    // Whether a remark is listed as text, up to its line's end: the second mode.
    pub remarks: bool,
    pub by: By,
}

// The options of the original's listing, which is the same under each of its dialects.
pub fn original() -> ListOptions
    ensures { result ≡ original_options }
{
    ListOptions {
        dialect: Dialect::Auto,
        remarks: false,
        by: By::Terminators,
    }
}

// What a walk over a body heeds.
pub fn rules_under(options: ListOptions) -> Rules
    ensures { result ≡ rules_under options }
{
    Rules {
        prefix: heeds_prefix(options.dialect, options.remarks),
        remarks: options.remarks,
        items: false,
        basic35: word_dialects::is_basic35(options.dialect),
    }
}

// Whether 64 is a prefix: not in the second mode under BasicV2, nor under BASIC 3.5.
fn heeds_prefix(dialect: Dialect, remarks: bool) -> bool
    ensures { result ≡ heeds_prefix dialect remarks }
{
    match dialect {
        Dialect::Auto | Dialect::Tsb => true,
        Dialect::BasicV2 => !remarks,
        Dialect::Basic35 => false,
    }
}
