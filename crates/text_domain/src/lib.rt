// Which texts are taken.
#![tactic(auto)]

ghost use Rattle.std.specs.Prelude.{◌≡◌, ◌≤◌};
ghost use Rattle.base_ascii.specs.Search.{front};
ghost use Rattle.text_domain.specs.Domain.{is_pi, domain_length, checked_text};
ghost use Rattle.text_domain.specs.DomainHelpers.{is_low};
ghost use Rattle.base_refusals.specs.Answer.{answered};

use crate::eights::top_of_eight;
use base_refusals::Refusal;

mod eights;

// Whether a text begins with the letter pi.
fn is_pi(text: &[u8]) -> bool
    ensures { result ≡ is_pi text.now }
{
    text.starts_with(b"\xCF\x80")
}

// So many bytes in front are below 80, and perhaps more: two eights are passed at a time.
fn passed_by_eights(text: &[u8]) -> usize
    ensures { result ≤ front is_low text.now }
{
    let mut i: usize = 0;
    while text.len() - i >= 16 {
        if top_of_eight(text, i).max(top_of_eight(text, i + 8)) >= 0x80 {
            return i;
        }
        i += 16;
    }
    i
}

// How many bytes in front lie in the domain.
fn domain_length(text: &[u8]) -> usize
    ensures { result ≡ domain_length text.now }
{
    let mut i = passed_by_eights(text);
    while i < text.len() {
        if text[i] < 0x80 {
            i += 1;
        } else if is_pi(&text[i..]) {
            i += 2;
        } else {
            return i;
        }
    }
    i
}

// Whether a text is one that is taken: not too long, and each byte in the domain.
pub fn check_text(text: &[u8]) -> Result<(), Refusal>
    ensures { answered result ≡ checked_text text.now }
{
    if text.len() > 1048576 {
        return Err(Refusal::TextTooLong { length: text.len() });
    }
    let fine = domain_length(text);
    if fine < text.len() {
        return Err(Refusal::BadByte { offset: fine });
    }
    Ok(())
}
