// What is told of a text: a sentence for each kind of fault and remark, with a % where a part of the text goes.
ghost use Rattle.std.specs.Prelude.{◌≡◌, ◌-◌, take, drop};

use desk::line::Line;

// The faults, for which a release would refuse the text, and then the remarks.
#[derive(Clone, Copy, PartialEq, Eq, PartialOrd, Ord)]
pub enum Saying {
    TooHigh,
    NotAbove,
    NoNumber,
    OutOfRange,
    BadLength,
    Zero,
    ZeroByte,
    BeyondMemory,
    BeyondAddress,
    TooLong,
    Utf16,
    OrderMark,
    CurlyQuote,
    NoBreakSpace,
    LongDash,
    Character,
    LoneByte,
    TsbWord,
    Control,
    Stray,
    Open,
    Long,
}

// All of them, in their order.
pub const KINDS: [Saying; 22] = [
    Saying::TooHigh,
    Saying::NotAbove,
    Saying::NoNumber,
    Saying::OutOfRange,
    Saying::BadLength,
    Saying::Zero,
    Saying::ZeroByte,
    Saying::BeyondMemory,
    Saying::BeyondAddress,
    Saying::TooLong,
    Saying::Utf16,
    Saying::OrderMark,
    Saying::CurlyQuote,
    Saying::NoBreakSpace,
    Saying::LongDash,
    Saying::Character,
    Saying::LoneByte,
    Saying::TsbWord,
    Saying::Control,
    Saying::Stray,
    Saying::Open,
    Saying::Long,
];

impl Saying {
    pub fn is_fault(self) -> bool {
        self < Saying::TsbWord
    }

    fn words(self) -> &'static [u8] {
        match self {
            Saying::TooHigh => b"fault: line number % is above 63999",
            Saying::NotAbove => b"fault: line number % is not above the one before",
            Saying::NoNumber => b"fault: no line number",
            Saying::OutOfRange => b"fault: the line number is above 65535",
            Saying::BadLength =>
                b"fault: the line has no byte, or more than 250, once it is crunched",
            Saying::Zero => b"fault: % gives a zero byte, where the machine would end the line",
            Saying::ZeroByte => b"fault: a zero byte, where the machine would end the line",
            Saying::BeyondMemory => {
                b"fault: the program reaches beyond the machine's BASIC memory, 0801 to 9FFF"
            }
            Saying::BeyondAddress => b"fault: the program reaches beyond address FFFF",
            Saying::TooLong => b"fault: the text has more than 1048576 bytes",
            Saying::Utf16 => b"fault: the text is in UTF-16",
            Saying::OrderMark => b"fault: no text may hold a byte order mark of UTF-8",
            Saying::CurlyQuote => b"fault: no text may hold a curly quote",
            Saying::NoBreakSpace => b"fault: no text may hold a no-break space",
            Saying::LongDash => b"fault: no text may hold a long dash",
            Saying::Character => b"fault: no text may hold this character of UTF-8",
            Saying::LoneByte => {
                b"fault: no text may hold this byte: it is above 7F, and no character of UTF-8"
            }
            Saying::TsbWord => b"remark: the TSB word % is taken",
            Saying::Control => b"remark: a tab or another control in the code",
            Saying::Stray => b"remark: {%} is no escape and stays as it is",
            Saying::Open => b"remark: {% has no } and stays as it is",
            Saying::Long => b"remark: {%.. is no escape and stays as it is",
        }
    }
}

// The part of some bytes from a place up to another, as much of it as there is.
pub fn cut(s: &[u8], from: usize, to: usize) -> &[u8]
    ensures { result.now ≡ take (to - from) (drop from s.now) }
{
    let end = to.min(s.len());
    if from < end { &s[from..end] } else { &s[..0] }
}

// Puts a sentence into a line, with a part of the text in the place of its mark.
pub fn put_sentence<const N: usize>(line: &mut Line<N>, saying: Saying, part: &[u8]) {
    let words = saying.words();
    match words.iter().position(|b| *b == b'%') {
        Some(mark) => {
            line.put(&words[..mark]);
            line.put(part);
            line.put(&words[mark + 1..]);
        }
        None => line.put(words),
    }
}
