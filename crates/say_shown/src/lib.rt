// Bytes that come from a text, an image, a disk or a file's name, as a person is shown them: no control among them reaches a terminal.
// Theorem `shown_plain` says so of all bytes.
#![tactic(auto)]

ghost use Rattle.std.specs.Prelude.{◌≡◌, ◌≤◌, ◌<◌, length};
ghost use Rattle.say_put.specs.Clipped.{Clipped};
ghost use Rattle.say_shown.specs.Shown.{is_control, capital_digit, shown_byte, shown, shown_line};

use say_put::put_text;

#[tactic(auto, unfolding(crate::specs::Shown::is_control))]
fn is_control(b: u8) -> bool
    ensures { result ≡ is_control b }
{
    b < 0x20 || b == 0x7F
}

#[tactic(auto, unfolding(crate::specs::Shown::capital_digit))]
fn digit(n: u8) -> u8
    requires { n < 16 }
    ensures { result ≡ capital_digit n }
{
    if n < 10 { b'0' + n } else { b'A' - 10 + n }
}

fn put_byte(out: &mut [u8], at: usize, b: u8) -> usize
    requires { at ≤ length out.old }
    ensures { Clipped out.old at (shown_byte b) result out.new }
{
    if is_control(b) {
        let high = digit(b / 16);
        let low = digit(b % 16);
        return put_text(out, at, &[b'{', b'$', high, low, b'}']);
    }
    put_text(out, at, &[b])
}

// Stores bytes as they are shown from a place on, as many as fit, and answers the place behind them.
pub fn put_shown(out: &mut [u8], at: usize, text: &[u8]) -> usize
    requires { at ≤ length out.old }
    ensures { Clipped out.old at (shown text.now) result out.new }
{
    let mut to = at;
    for b in text {
        to = put_byte(out, to, *b);
    }
    to
}

// The same of a line of its own, with its end.
pub fn put_line(out: &mut [u8], at: usize, words: &[u8]) -> usize
    requires { at ≤ length out.old }
    ensures { Clipped out.old at (shown_line words.now) result out.new }
{
    let end = put_shown(out, at, words);
    put_text(out, end, b"\n")
}
