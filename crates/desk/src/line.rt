// A line of what is said, put together piece by piece in a buffer of its own: what has no room is cut off.
ghost use Rattle.std.specs.Prelude.{◌≡◌, ◌≤◌, take};
ghost use Rattle.base_steps.specs.Decimal.{decimal};
ghost use Rattle.say_put.specs.Clipped.{Clipped};
ghost use Rattle.say_shown.specs.Shown.{shown, shown_line};

use say_put::{put_decimal, put_text};
use say_shown::{put_line, put_shown};

#[derive(Drop)]
pub struct Line<const N: usize> {
    bytes: [u8; N],
    end: usize,
    ghost within: { end ≤ N },
}

impl<const N: usize> Line<N> {
    // A line of nothing yet.
    pub fn new() -> Line<N>
        ensures { result.end ≡ 0 }
    {
        Line {
            bytes: [0; N],
            end: 0,
        }
    }

    // Puts a text behind what there is.
    pub fn put(&mut self, text: &[u8])
        ensures { Clipped self.old.bytes self.old.end text.now self.new.end self.new.bytes }
    {
        self.end = put_text(&mut self.bytes, self.end, text);
    }

    // The same of a number.
    pub fn put_decimal(&mut self, n: usize)
        ensures { Clipped self.old.bytes self.old.end (decimal n) self.new.end self.new.bytes }
    {
        self.end = put_decimal(&mut self.bytes, self.end, n);
    }

    // The same of a text from outside, shown.
    pub fn put_shown(&mut self, text: &[u8])
        ensures { Clipped self.old.bytes self.old.end (shown text.now) self.new.end self.new.bytes }
    {
        self.end = put_shown(&mut self.bytes, self.end, text);
    }

    // The same of words that are a line of their own, with its end.
    pub fn put_line(&mut self, words: &[u8])
        ensures { Clipped self.old.bytes self.old.end (shown_line words.now) self.new.end self.new.bytes }
    {
        self.end = put_line(&mut self.bytes, self.end, words);
    }

    // What there is.
    pub fn bytes(&self) -> &[u8]
        ensures { result.now ≡ take self.now.end self.now.bytes }
    {
        &self.bytes[..self.end]
    }
}
