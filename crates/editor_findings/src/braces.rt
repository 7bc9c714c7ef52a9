// What stands behind a { that begins no escape.
ghost use Rattle.std.specs.Prelude.{◌≡◌, take};
ghost use Rattle.editor_findings.specs.Braces.{inside_of};

use base_ascii::search;
use base_ascii::search::Kind;

// How many bytes an author has put between braces: up to the }, or, where a quote or the end of the body comes first, up to that. An
// escape is short: where none of these is near, it is not looked for.
#[derive(Clone, Copy)]
pub enum Inside {
    Closed(usize),
    Unclosed(usize),
    Long,
}

// The first bytes of a text, 64 at most.
fn near(text: &[u8]) -> &[u8]
    ensures { result.now ≡ take 64 text.now }
{
    &text[..text.len().min(64)]
}

// What stands behind a {, in front of a text.
pub fn behind_brace(text: &[u8]) -> Inside
    ensures { result ≡ inside_of text.now }
{
    let front = near(text);
    let closing = search::before(front, Kind::Is(b'}'));
    let quote = search::before(front, Kind::Is(b'"'));
    if closing < quote {
        Inside::Closed(closing)
    } else if quote < 64 {
        Inside::Unclosed(quote)
    } else {
        Inside::Long
    }
}
