// The measuring pass: the room that an image needs, and the refusals of a text.
#![tactic(auto)]

ghost use Rattle.std.specs.Prelude.{◌≡◌};
ghost use Rattle.body_rules.specs.Lexicon.{lexicon};
ghost use Rattle.crunch_measure.specs.MeasureHelpers.{PassedAs, Span, line_between};

use base_refusals::Refusal;
use crunch_rules::{MeasuredLine, Options};
use crunch_sizes::Spot;
use image_readers::Line;
use text_lines::LineRule;
use word_match::sets::Sets;
use word_tables::Words;

// What measuring a text answers: the room that its image needs, and the line at a place of that image, if it has one there.
#[derive(Clone, Copy)]
pub struct Pass {
    pub room: usize,
    pub line: Option<MeasuredLine>,
}

// Measures a text that is in the domain, its words known.
pub fn measure(
    text: &[u8],
    options: Options,
    place: usize,
    words: Words,
    sets: Sets,
) -> Result<Pass, Refusal>
    ensures { PassedAs options.profile (lexicon sets) options.load place text.now result }
{
    let first = options.load as usize;
    let mut address = first;
    let mut at: usize = 0;
    let mut k: usize = 0;
    let mut least: usize = 0;
    let mut count: usize = 0;
    let mut found = None;
    while at < text.len() {
        let next = text_lines::next_line(text, at, LineRule::AfterCr);
        let line = &text[next.begin..next.end];
        k += 1;
        let spot = Spot {
            profile: options.profile,
            k,
            least,
            address,
        };
        if let Some(sized) = crunch_sizes::measure_line(line, spot, words, sets)? {
            count += 1;
            least = sized.number as usize + 1;
            if count == place {
                let line = line_between(first, address, sized.number, sized.behind);
                found = Some(MeasuredLine { line, origin: k });
            }
            address = sized.behind;
        }
        at = next.next;
    }
    Ok(Pass {
        room: address - first + 4,
        line: found,
    })
}

// The line from one address to another, as it will stand.
fn line_between(first: usize, address: usize, number: u16, behind: usize) -> Line
    requires { Span first address behind }
    ensures { result ≡ line_between first address number behind }
{
    Line {
        address,
        link: behind as u16,
        number,
        from: address - first + 6,
        to: behind - first + 1,
        next: behind - first + 2,
    }
}
