// Names of files, split at their marks, and what a listing is called.
#![tactic(auto)]

ghost use Rattle.std.specs.Prelude.{◌≡◌, ◌+◌, ◌<◌, length, drop};
ghost use Rattle.say_put.specs.Clipped.{Clipped};
ghost use Rattle.say_names.specs.Names.{behind_last, before_last, plain_name, listing_name};

use base_ascii::search;
use base_ascii::search::Kind;
use say_put::put_text;

// What stands behind a place.
pub fn behind(word: &[u8], n: usize) -> &[u8]
    requires { n < length word.now }
    ensures { result.now ≡ drop (n + 1) word.now }
{
    &word[n + 1..]
}

// What stands behind a word's last mark, or the word where it has none.
pub fn behind_last(word: &[u8], mark: u8) -> &[u8]
    ensures { result.now ≡ behind_last mark word.now }
{
    match search::last(word, Kind::Is(mark)) {
        Some(n) => behind(word, n),
        None => word,
    }
}

// The same of what stands before it.
pub fn before_last(word: &[u8], mark: u8) -> &[u8]
    ensures { result.now ≡ before_last mark word.now }
{
    match search::last(word, Kind::Is(mark)) {
        Some(n) => &word[..n],
        None => word,
    }
}

// A file's name without its folder, and without what stands from its last dot on.
pub fn plain_name(file: &[u8]) -> &[u8]
    ensures { result.now ≡ plain_name file.now }
{
    before_last(behind_last(file, b'/'), b'.')
}

// Stores what a program's listing is called in a folder at the start of a buffer, as much of it as fits, and answers how many bytes that are.
pub fn listing_name(folder: &[u8], file: &[u8], out: &mut [u8]) -> usize
    ensures { Clipped out.old 0 (listing_name folder.now file.now) result out.new }
{
    let slash = put_text(out, 0, folder);
    let from = put_text(out, slash, b"/");
    let dot = put_text(out, from, plain_name(file));
    put_text(out, dot, b".txt")
}
