// Why a call of the system failed, in the system's own words.
ghost use Rattle.std.specs.Prelude.{◌≤◌, length};
ghost use Rattle.io.specs.Counts.{IsPrefixLen};

use std::io::{Cursor, Error, Write};

// Where the words end that the library puts a number behind, as in `No such file or directory (os error 2)`.
fn before_number(words: &[u8]) -> usize
    ensures { result ≤ length words.now }
{
    match words.iter().rposition(|b| *b == b'(') {
        Some(mark) => mark.saturating_sub(1),
        None => words.len(),
    }
}

fn words_end(why: Error, words: &[u8]) -> usize
    ensures { result ≤ length words.now }
{
    if why.raw_os_error().is_some() {
        before_number(words)
    } else {
        words.len()
    }
}

// Puts the words at the start of a buffer, as many as fit.
fn written(why: Error, room: &mut [u8]) -> usize
    ensures { IsPrefixLen result room.new }
{
    let mut to = Cursor::new(&mut *room);
    if to.write_fmt(why).is_err() {
        return 0;
    }
    let end = to.position() as usize;
    end.min(room.len())
}

// The same, without the number that the library puts behind them.
pub fn put<'a>(why: Error, room: &'a mut [u8]) -> &'a [u8]
    ensures { length result.now ≤ length room.old }
{
    let end = written(why, room);
    let count = words_end(why, &room[..end]);
    &room[..count]
}
