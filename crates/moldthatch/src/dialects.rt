// Dialects by name and by number, and what else is asked of a text before it is crunched.
ghost use Rattle.std.specs.Prelude.{◌≡◌};
ghost use Rattle.base_refusals.specs.Answer.{done, answered};
ghost use Rattle.word_dialects.specs.Dialects.{by_number, named as dialect_named};
ghost use Rattle.word_tables.specs.Tsb.{is_tsb_word};
ghost use Rattle.escape_bytes.specs.Escape.{escape_of};
ghost use Rattle.say_put.specs.Clipped.{Clipped};
ghost use Rattle.crunch_rules.specs.Measured.{nonblank_lines};
ghost use Rattle.moldthatch.specs.Given.{resolved_by};
ghost use Rattle.moldthatch.specs.ToldDialects.{dialect_code, load_code, escape_code};

use base_refusals::{Code, Refusal};
use escape_bytes::Escape;
use guess::resolve;
use word_dialects::Dialect;
use word_match::tsb;

// The number of the dialect that a word names.
#[unsafe(no_mangle)]
pub extern "C" fn moldthatch_dialect_by_name(word: &[u8]) -> Code
    ensures { result ≡ dialect_code (dialect_named word.now) }
{
    named_code(word_dialects::dialect_by_name(word))
}

// The address that programs of a dialect are loaded at where no other is asked for.
#[unsafe(no_mangle)]
pub extern "C" fn moldthatch_default_load(dialect: u8) -> Code
    ensures { result ≡ load_code (by_number dialect) }
{
    load_code(word_dialects::dialect_by_number(dialect))
}

// The number of the dialect by which a text is taken.
#[unsafe(no_mangle)]
pub extern "C" fn moldthatch_resolved_dialect(text: &[u8], dialect: u8) -> Code
    ensures { result ≡ dialect_code (resolved_by dialect text.now) }
{
    match word_dialects::dialect_by_number(dialect) {
        Ok(known) => named_code(resolve::resolved_dialect(text, known)),
        Err(refusal) => base_refusals::refusal_code(refusal),
    }
}

// Whether a word is the spelling of a TSB word, in capitals.
#[unsafe(no_mangle)]
pub extern "C" fn moldthatch_is_tsb_word(word: &[u8]) -> bool
    ensures { result ≡ is_tsb_word word.now }
{
    tsb::is_tsb_keyword_name(word)
}

// What stands between two braces: a byte and how often it is repeated, or nothing known.
#[unsafe(no_mangle)]
pub extern "C" fn moldthatch_escape(inside: &[u8]) -> Code
    ensures { result ≡ escape_code (escape_of inside.now) }
{
    escape_code(escapes::petscii_escape(inside))
}

// Stores the text line of each line that a text gives its image, as many as fit: how many were stored.
#[unsafe(no_mangle)]
pub extern "C" fn moldthatch_origins(text: &[u8], out: &mut [usize]) -> usize
    ensures { Clipped out.old 0 (nonblank_lines text.now) result out.new }
{
    crunch_origins::origins(text, out)
}

fn named_code(named: Result<Dialect, Refusal>) -> Code
    ensures { result ≡ dialect_code (answered named) }
{
    match named {
        Ok(dialect) => dialect_code(dialect),
        Err(refusal) => base_refusals::refusal_code(refusal),
    }
}

fn load_code(named: Result<Dialect, Refusal>) -> Code
    ensures { result ≡ load_code (answered named) }
{
    match named {
        Ok(dialect) => {
            base_refusals::with_one(0, usize::from(word_dialects::default_load(dialect)))
        }
        Err(refusal) => base_refusals::refusal_code(refusal),
    }
}

fn dialect_code(dialect: Dialect) -> Code
    ensures { result ≡ dialect_code (done dialect) }
{
    match dialect {
        Dialect::Auto => base_refusals::with_one(0, 0),
        Dialect::BasicV2 => base_refusals::with_one(0, 1),
        Dialect::Tsb => base_refusals::with_one(0, 2),
        Dialect::Basic35 => base_refusals::with_one(0, 3),
    }
}

fn escape_code(escape: Option<Escape>) -> Code
    ensures { result ≡ escape_code escape }
{
    match escape {
        Some(Escape { byte, count }) => Code {
            number: 0,
            count: 2,
            first: usize::from(byte),
            second: count as usize,
        },
        None => Code {
            number: 0,
            count: 0,
            first: 0,
            second: 0,
        },
    }
}
