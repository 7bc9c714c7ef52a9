// Escapes that name a key to be held, and one byte.
ghost use Rattle.std.specs.Prelude.{◌≡◌};
ghost use Rattle.word_search.specs.Find.{meaning};
ghost use Rattle.escape_bytes.specs.Keys.{key_names, key_escape};
ghost use Rattle.escapes.specs.KeyHelpers.{begins_key};

use base_ascii::search;
use base_ascii::search::Kind;
use escape_bytes::{Escape, Key};

// A prefix, and the key that it names.
struct KeyName {
    prefix: &'static [u8],
    key: Key,
}

const KEY_NAMES: [KeyName; 7] = [
    KeyName {
        prefix: b"ctrl",
        key: Key::Control,
    },
    KeyName {
        prefix: b"cntrl",
        key: Key::Control,
    },
    KeyName {
        prefix: b"control",
        key: Key::Control,
    },
    KeyName {
        prefix: b"cm",
        key: Key::Commodore,
    },
    KeyName {
        prefix: b"cbm",
        key: Key::Commodore,
    },
    KeyName {
        prefix: b"sh",
        key: Key::Shift,
    },
    KeyName {
        prefix: b"shift",
        key: Key::Shift,
    },
];

// The key that a prefix names, without regard to case.
fn key_named(prefix: &[u8]) -> Option<Key>
    ensures { result ≡ meaning key_names prefix.now }
{
    for name in &KEY_NAMES {
        if word_search::alike(name.prefix, prefix) {
            return Some(name.key);
        }
    }
    None
}

// Whether a name begins as a prefix does, with C or S.
fn begins_key(name: &[u8]) -> bool
    ensures { result ≡ begins_key name.now }
{
    match name {
        [first, ..] => matches!(base_ascii::upper(*first), b'C' | b'S'),
        [] => false,
    }
}

// The escape of a name that is a prefix, a mark and one byte. Most texts that are no escape begin with another letter than a prefix. No prefix has more than
// seven bytes, so its mark is one of the first eight, and no more of a long text is read.
pub fn key_escape(name: &[u8], count: u64) -> Option<Escape>
    ensures { result ≡ key_escape name.now count }
{
    if !begins_key(name) {
        return None;
    }
    let reach = name.len().min(8);
    let mark = search::before(&name[..reach], Kind::Mark);
    if reach <= mark {
        return None;
    }
    let from = mark + 1;
    match base_ascii::trim(&name[from..]) {
        [b] => escape_bytes::key_with(key_named(&name[..mark])?, *b, count),
        _ => None,
    }
}
