// Why there is no result, in a sentence for a person. The sentences are those of facts/refusals.tsv.
#![tactic(auto)]

ghost use Rattle.std.specs.Prelude.{◌≡◌, ◌≤◌, length};
ghost use Rattle.say_put.specs.Clipped.{Clipped};
ghost use Rattle.say_sentences.specs.Sentence.{behind_rows, sentence as sentence_of, placed_sentence, name_first, number_last, message as message_of};

use base_refusals::Code;
use say_put::{fill, put_decimal, put_text};

// A line for each refusal, in the order of the numbers. # stands for the next value that the refusal carries.
const ROWS: [u8; 1177] = *b"text too long: # bytes or more\n\
offset #: a byte that no text may hold\n\
text line #: no line number\n\
text line #: line number # is above 65535\n\
the image would reach beyond address 65535\n\
no room: # bytes are needed\n\
image too long: # bytes or more\n\
image too short: fewer than two bytes\n\
the image ends within the link or the number of a line\n\
offset #: the image ends where a link belongs\n\
offset #: the link leads backward, or into its own line\n\
offset #: the link leads beyond the end of the image\n\
offset #: the link leads to a place where no line has ended\n\
unknown dialect\n\
text line #: the line number is above 63999\n\
text line #: the line number is not above the one before\n\
text line #: the line holds a zero byte, where the machine would end it\n\
text line #: the line has no byte, or more than 250, once it is crunched\n\
the limit of lines was reached before the line was found\n\
not a disk image that can be worked on\n\
a file name has 1 to 16 bytes, and none of them is A0\n\
a file of this name is on the disk already\n\
no file of this name is on the disk\n\
the directory is full: 144 files\n\
the disk is full\n\
more than 1000 images\n\
more than 8191 lines\n\
a jump leads to a line number above 65535\n";

// The second line, where the text is at hand.
const PLACED: [u8; 52] = *b"text line #, column #: a byte that no text may hold\n";

// What stands behind so many lines.
fn behind_rows(rows: &[u8], count: usize) -> &[u8]
    ensures { result.now ≡ behind_rows count rows.now }
{
    let mut left = count;
    for (i, b) in rows.iter().enumerate() {
        if left == 0 {
            return &rows[i..];
        }
        if *b == b'\n' {
            left -= 1;
        }
    }
    b""
}

fn put_sentence(out: &mut [u8], at: usize, code: Code) -> usize
    requires { at ≤ length out.old }
    ensures { Clipped out.old at (sentence_of code) result out.new }
{
    let number = usize::from(code.number);
    if number > 0 {
        let row = behind_rows(&ROWS, number - 1);
        return fill(out, at, row, code.first, code.second, 0);
    }
    at
}

// The sentence where the text is at hand: an offset in it as a line and a column.
fn put_placed(out: &mut [u8], at: usize, text: &[u8], code: Code) -> usize
    requires { (at ≤ length out.old) × (length text.now ≤ 1048576) }
    ensures { Clipped out.old at (placed_sentence text.now code) result out.new }
{
    if code.number == 2 {
        let found = text_places::place_of(text, code.first);
        return fill(out, at, &PLACED, found.line, found.column, 0);
    }
    put_sentence(out, at, code)
}

// Stores the sentence of a refusal at the start of a buffer, as much of it as fits, and answers how many bytes that are.
pub fn sentence(code: Code, out: &mut [u8]) -> usize
    ensures { Clipped out.old 0 (sentence_of code) result out.new }
{
    put_sentence(out, 0, code)
}

fn put_name(out: &mut [u8], name: &[u8]) -> usize
    ensures { Clipped out.old 0 (name_first name.now) result out.new }
{
    let colon = put_text(out, 0, name);
    put_text(out, colon, b": ")
}

fn put_number(out: &mut [u8], at: usize, number: usize) -> usize
    requires { at ≤ length out.old }
    ensures { Clipped out.old at (number_last number) result out.new }
{
    let mark = put_text(out, at, b" (refusal ");
    let end = put_decimal(out, mark, number);
    put_text(out, end, b")\n")
}

// The same for the line that a person reads: what was read, the sentence, and the refusal's number.
pub fn message(name: &[u8], text: &[u8], code: Code, out: &mut [u8]) -> usize
    requires { length text.now ≤ 1048576 }
    ensures { Clipped out.old 0 (message_of name.now text.now code) result out.new }
{
    let from = put_name(out, name);
    let to = put_placed(out, from, text, code);
    put_number(out, to, usize::from(code.number))
}
