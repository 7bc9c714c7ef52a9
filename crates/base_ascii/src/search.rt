// Searches in bytes, from the front and from the end. What is looked for goes in as data.
ghost use Rattle.std.specs.Prelude.{◌≡◌, length};
ghost use Rattle.base_ascii.specs.Search.{is_white, is_blank, is_mark, of_kind, starts_with, front as front_of, before as before_of, last as last_of, past_end};

// What is looked for: a byte of a kind.
#[derive(Clone, Copy)]
pub enum Kind {
    // One given byte.
    Is(u8),
    // 0 to 9.
    Digit,
    // 20 alone.
    Space,
    // White space as the dialect guess knows it: 09, 0A, 0C, 0D and 20. The vertical tab, 0B, is none.
    White,
    // White space of trimming and of the dialect guess alike, that ends no line: 09, 0C and 20.
    Blank,
    // What ends the prefix of an escape: a space, - or _.
    Mark,
}

fn is_white(b: u8) -> bool
    ensures { result ≡ is_white b }
{
    b == 0x20 || crate::between(0x09, 0x0A, b) || crate::between(0x0C, 0x0D, b)
}

fn is_blank(b: u8) -> bool
    ensures { result ≡ is_blank b }
{
    matches!(b, 0x09 | 0x0C | 0x20)
}

fn is_mark(b: u8) -> bool
    ensures { result ≡ is_mark b }
{
    matches!(b, b' ' | b'-' | b'_')
}

// Whether a byte is of a kind.
pub fn is_kind(b: u8, kind: Kind) -> bool
    ensures { result ≡ of_kind kind b }
{
    match kind {
        Kind::Is(x) => b == x,
        Kind::Digit => crate::is_digit(b),
        Kind::Space => b == 0x20,
        Kind::White => is_white(b),
        Kind::Blank => is_blank(b),
        Kind::Mark => is_mark(b),
    }
}

// Whether the first byte is b.
pub fn starts_with(s: &[u8], b: u8) -> bool
    ensures { result ≡ starts_with b s.now }
{
    0 < s.len() && s[0] == b
}

// How many bytes in front are of the kind.
pub fn front(s: &[u8], kind: Kind) -> usize
    ensures { result ≡ front_of (of_kind kind) s.now }
{
    s.iter().take_while(|b| is_kind(**b, kind)).count()
}

// How many bytes stand in front of the first of the kind: all of them where there is none.
pub fn before(s: &[u8], kind: Kind) -> usize
    ensures { result ≡ before_of (of_kind kind) s.now }
{
    s.iter().take_while(|b| !is_kind(**b, kind)).count()
}

// Where the last byte of the kind stands.
pub fn last(s: &[u8], kind: Kind) -> Option<usize>
    ensures { result ≡ last_of (of_kind kind) s.now }
{
    for i in (0..s.len()).rev() {
        if is_kind(s[i], kind) {
            return Some(i);
        }
    }
    None
}

// How many bytes are left when those of the kind are taken away at the end.
pub fn solid(s: &[u8], kind: Kind) -> usize
    ensures { result ≡ length (past_end (of_kind kind) s.now) }
{
    s.len() - s.iter().rev().take_while(|b| is_kind(**b, kind)).count()
}
