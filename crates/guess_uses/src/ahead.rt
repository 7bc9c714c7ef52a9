// What follows a name: a list in parentheses, an assignment.
ghost use Rattle.std.specs.Prelude.{◌≡◌, ◌<◌, length};
ghost use Rattle.guess_uses.specs.Ahead.{closing as closing_of, behind_list, assigns as assigns_of};
ghost use Rattle.guess_uses.specs.MarkHelpers.{equals_ahead, MarksOf};

use crate::lists;
use base_ascii::search;
use base_ascii::search::Kind;

// How many bytes a list takes behind its opening parenthesis: up to the closing one, or to the end. Most bytes are above both parentheses,
// and one test passes them.
fn closing(text: &[u8]) -> usize
    ensures { result ≡ closing_of 0 text.now }
{
    let mut depth: usize = 0;
    for (i, b) in text.iter().enumerate() {
        if *b > b')' {
            continue;
        }
        match *b {
            b'(' => depth += 1,
            b')' => {
                if depth == 0 {
                    return i + 1;
                }
                depth -= 1;
            }
            _ => {}
        }
    }
    text.len()
}

// Whether = follows the list in parentheses that a text begins with.
fn list_assigned(text: &[u8], blank: Kind) -> bool
    requires { 0 < length text.now }
    ensures { result ≡ equals_ahead blank (behind_list text.now) }
{
    let list = 1 + closing(&text[1..]);
    let behind = &text[list..];
    let more = search::front(behind, blank);
    search::starts_with(&behind[more..], b'=')
}

// Whether an assignment follows a name: blanks, perhaps a list in parentheses and blanks behind it, then =. Where the lists are marked,
// none is read.
pub fn assigns(text: &[u8], blank: Kind, marks: &[u8]) -> bool
    requires { MarksOf blank text.now marks.now }
    ensures { result ≡ assigns_of blank text.now }
{
    let blanks = search::front(text, blank);
    let rest = &text[blanks..];
    if !search::starts_with(rest, b'(') {
        return search::starts_with(rest, b'=');
    }
    if marks.is_empty() {
        list_assigned(rest, blank)
    } else {
        lists::bit(marks, rest.len() - 1)
    }
}
