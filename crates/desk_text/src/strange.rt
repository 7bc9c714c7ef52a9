// The bytes of a text that no text may hold, line by line, each in words.
use crate::sayings;
use crate::sayings::Saying;
use crate::sentence::Report;
use editor_strange_bytes::{Foreign, Stranger};
use text_places::Place;

// How many characters of UTF-8 stand in some bytes.
fn characters(s: &[u8]) -> usize {
    s.iter().filter(|b| !matches!(**b, 0x80..=0xBF)).count()
}

fn saying_of(kind: Foreign) -> Saying {
    match kind {
        Foreign::OrderMark => Saying::OrderMark,
        Foreign::CurlyQuote => Saying::CurlyQuote,
        Foreign::NoBreakSpace => Saying::NoBreakSpace,
        Foreign::LongDash => Saying::LongDash,
        Foreign::Character => Saying::Character,
        Foreign::LoneByte => Saying::LoneByte,
    }
}

// The strange bytes of one line: at most one for each byte.
pub fn check_line(report: &mut Report, k: usize, line: &[u8]) {
    let mut at: usize = 0;
    let mut column: usize = 1;
    for _ in 0..line.len() {
        let Ok(Some(Stranger { offset, kind, used })) = editor_strange_bytes::next_stranger(
            line, at,
        ) else {
            return;
        };
        column = column.saturating_add(characters(sayings::cut(line, at, offset)));
        report.tell_bare(Place { line: k, column }, saying_of(kind));
        column = column.saturating_add(1);
        at = offset.saturating_add(used);
    }
}
