// Whether a TSB word proves that a text is TSB, by what follows it.
ghost use Rattle.std.specs.Prelude.{◌≡◌, ◌≤◌, length};
ghost use Rattle.base_ascii.specs.declared.search.Kind.TheVariants.{White};
ghost use Rattle.guess_uses.specs.Proving.{is_else, assigned as assigned_of, called, proves as proves_of};
ghost use Rattle.guess_uses.specs.MarkHelpers.{MarksOf};

use crate::ahead;
use base_ascii::search;
use base_ascii::search::Kind;

// Whether a word of so many bytes is ELSE.
fn is_else(used: usize, text: &[u8]) -> bool
    ensures { result ≡ is_else used text.now }
{
    used == 4 && word_search::begins(b"ELSE", text)
}

// Whether what follows a word makes it a variable that is assigned to.
fn assigned(text: &[u8], marks: &[u8]) -> bool
    requires { MarksOf White text.now marks.now }
    ensures { result ≡ assigned_of text.now }
{
    if search::starts_with(text, b'%') || search::starts_with(text, b'$') {
        ahead::assigns(&text[1..], Kind::White, marks)
    } else {
        ahead::assigns(text, Kind::White, marks)
    }
}

// Whether what follows a word makes it a function.
fn is_called(text: &[u8]) -> bool
    ensures { result ≡ called text.now }
{
    let blanks = search::front(text, Kind::White);
    search::starts_with(&text[blanks..], b'(')
}

// Whether a TSB word of so many bytes in front of a text proves that the text is TSB.
pub fn proves(start: bool, text: &[u8], used: usize, marks: &[u8]) -> bool
    requires { (used ≤ length text.now) × MarksOf White text.now marks.now }
    ensures { result ≡ proves_of start text.now used }
{
    if is_else(used, text) {
        return true;
    }
    let behind = &text[used..];
    if start {
        !assigned(behind, marks)
    } else {
        is_called(behind)
    }
}
