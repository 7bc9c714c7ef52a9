// The steps of a body that an editor is told of, one after the other.
ghost use Rattle.std.specs.Prelude.{◌≡◌};
ghost use Rattle.body_steps.specs.BraceHelpers.{Spans};
ghost use Rattle.body_rules.specs.Lexicon.{lexicon};
ghost use Rattle.editor_findings.specs.Sights.{first_sight};
ghost use Rattle.editor_findings.specs.ToldHelpers.{Tells};

use body::at;
use body::at::{Stand, Stepped};
use body_rules::Mode;
use editor_steps::Finding;
use word_match::sets::Sets;
use word_tables::spellings;

// A place of a body, and the mode in which it is crunched from there on.
#[derive(Clone, Copy)]
pub struct Spot {
    pub mode: Mode,
    pub at: usize,
}

// A step that is told: it goes from a place to a spot.
#[derive(Clone, Copy)]
pub struct Sighting {
    pub finding: Finding,
    pub from: usize,
    pub to: Spot,
}

// What is told, if such a step is left, and where the walk stands behind it.
#[derive(Clone, Copy)]
pub struct Told {
    pub sighting: Option<Sighting>,
    pub stand: Stand,
}

// The first step from a spot of a body on that is told.
pub fn next_sight(text: &[u8], from: Spot, sets: Sets) -> Option<Sighting>
    ensures { result ≡ first_sight (lexicon sets) text.now from }
{
    let stand = at::stand_at(text, from.at, from.mode);
    sight_from(text, stand, sets).sighting
}

// The same from where a walk stands. Whoever goes on from where it stands behind that looks at no byte for two braces.
pub fn sight_from(text: &[u8], from: Stand, sets: Sets) -> Told
    requires { Spans text.now from.at from.span }
    ensures { Tells (lexicon sets) text.now from result }
{
    let words = spellings::stored_words();
    let mut stand = from;
    while stand.at < text.len() {
        let Stepped { step, span } = at::step_at(text, stand, words, sets);
        let finding = editor_steps::finding_of(stand.mode, text[stand.at], step);
        let behind = Stand {
            at: stand.at + step.used,
            mode: step.mode,
            span,
        };
        if !editor_steps::is_usual(finding) {
            let to = Spot {
                mode: behind.mode,
                at: behind.at,
            };
            return Told {
                sighting: Some(Sighting {
                    finding,
                    from: stand.at,
                    to,
                }),
                stand: behind,
            };
        }
        stand = behind;
    }
    Told {
        sighting: None,
        stand,
    }
}
