// The checks of a text: its bytes, then each line by its number, its length and its steps, then the whole.
use crate::sayings::{Saying, cut};
use crate::sentence::Report;
use crate::{sentence, steps, strange};
use base_refusals::Refusal;
use crunch_rules::Options;
use desk::line::Line;
use desk::{output, result};
use desk_status::Status;
use editor_findings::deciding;
use guess::resolve;
use text_lines::LineRule;
use text_numbers::Numbering;
use text_places::Place;
use word_dialects::Dialect;
use word_match::sets::Sets;

// The number of a line, alone and behind the one before it.
fn check_number(report: &mut Report, k: usize, number: u16, last: Option<u16>) {
    let mut digits = Line::<20>::new();
    digits.put_decimal(usize::from(number));
    if image_limits::is_too_high(image_limits::commodore_64(), number) {
        report.tell_line(k, Saying::TooHigh, digits.bytes());
    }
    if let Some(before) = last
        && image_limits::is_not_ascending(usize::from(before) + 1, number)
    {
        report.tell_line(k, Saying::NotAbove, digits.bytes());
    }
}

// The length of a body once it is crunched, and its steps.
fn check_body(report: &mut Report, from: Place, body: &[u8], sets: Sets) {
    let length = deciding::body_length(body, sets);
    if image_limits::is_bad_length(image_limits::commodore_64(), length) {
        report.tell_line(from.line, Saying::BadLength, b"");
    }
    steps::check_steps(report, from, body, sets);
}

// A line behind one of a number, if there is one; the number of the last line then.
fn check_line(
    report: &mut Report,
    k: usize,
    line: &[u8],
    last: Option<u16>,
    sets: Sets,
) -> Option<u16> {
    match text_numbers::number_line(line) {
        Numbering::Blank => last,
        Numbering::Missing => {
            report.tell_line(k, Saying::NoNumber, b"");
            last
        }
        Numbering::OutOfRange { value: _ } => {
            report.tell_line(k, Saying::OutOfRange, b"");
            last
        }
        Numbering::Numbered {
            number,
            body_from,
            body_to,
        } => {
            check_number(report, k, number, last);
            let from = Place {
                line: k,
                column: body_from.saturating_add(1),
            };
            check_body(report, from, cut(line, body_from, body_to), sets);
            Some(number)
        }
    }
}

fn check_lines(report: &mut Report, text: &[u8], sets: Sets) {
    let mut last = None;
    let mut at: usize = 0;
    let mut k: usize = 0;
    while at < text.len() {
        let line = text_lines::next_line(text, at, LineRule::AfterCr);
        k = k.saturating_add(1);
        last = check_line(report, k, cut(text, at, line.end), last, sets);
        at = line.next;
    }
}

// Each line of a text that has bytes that no text may hold.
fn check_strange(report: &mut Report, text: &[u8]) {
    let mut at: usize = 0;
    let mut k: usize = 0;
    while at < text.len() {
        let line = text_lines::next_line(text, at, LineRule::AfterCr);
        k = k.saturating_add(1);
        strange::check_line(report, k, cut(text, at, line.end));
        at = line.next;
    }
}

// What is wrong with the room of a program, if anything is.
fn room_fault(text: &[u8]) -> Option<Saying> {
    let options = Options {
        load: 0x0801,
        dialect: Dialect::Auto,
        profile: false,
        forms: false,
    };
    match crunch_image::room(text, options) {
        Ok(n) if image_limits::is_in_basic_memory(image_limits::commodore_64(), options.load, n) =>
            None,
        Ok(_) => Some(Saying::BeyondMemory),
        Err(Refusal::AddressOverflow) => Some(Saying::BeyondAddress),
        Err(_) => None,
    }
}

// Whether the machine has room for the program.
fn check_room(report: &mut Report, text: &[u8]) {
    if let Some(fault) = room_fault(text) {
        report.tell_line(1, fault, b"");
    }
}

// Where a text line begins, counted from 1.
fn line_start(text: &[u8], number: usize) -> usize {
    let mut at: usize = 0;
    let mut k: usize = 1;
    while at < text.len() && k < number {
        k = k.saturating_add(1);
        at = text_lines::next_line(text, at, LineRule::AsGiven).next;
    }
    at
}

// Says that a line decides for TSB, and by which word.
fn close_by(report: &mut Report, k: usize, line: &[u8]) {
    let from = match guess_evidence::deciding_word(line) {
        Some(word) => word.offset,
        None => 0,
    };
    let rest = cut(line, from, line.len());
    let place = Place {
        line: k,
        column: from.saturating_add(1),
    };
    report.close_by(place, cut(rest, 0, deciding::tsb_length(rest)));
}

// The same of the line with this number.
fn close_line(report: &mut Report, k: usize, text: &[u8]) {
    let at = line_start(text, k);
    if at >= text.len() {
        close_by(report, k, b"");
    } else {
        let line = text_lines::next_line(text, at, LineRule::AsGiven);
        close_by(report, k, cut(text, at, line.end));
    }
}

// The dialect, and what decides it.
fn close(report: &mut Report, text: &[u8]) {
    if !report.is_quiet() {
        match deciding::deciding_line(text, LineRule::AsGiven) {
            Some(k) => close_line(report, k, text),
            None => report.close(),
        }
    }
}

// A text that crunching refuses for its length or its bytes: each of these is told, and of a text in UTF-16 only that it is one.
fn tell_refused(report: &mut Report, text: &[u8]) {
    if text.len() > 1048576 {
        report.tell_line(1, Saying::TooLong, b"");
    } else if editor_strange_bytes::is_utf16(text) {
        report.tell_line(1, Saying::Utf16, b"");
    } else {
        check_strange(report, text);
    }
}

// Checks a text, and tells what it finds unless it is to be quiet.
pub fn check_text(rt: &HostRuntime, name: &[u8], text: &[u8], is_quiet: bool) -> Status {
    let mut report = Report::new(rt, name, is_quiet);
    if text_domain::check_text(text).is_ok() {
        check_lines(&mut report, text, deciding::words_of(text));
        check_room(&mut report, text);
        report.tell_rest();
        close(&mut report, text);
    } else {
        tell_refused(&mut report, text);
        report.tell_rest();
    }
    report.end()
}

// The name of a dialect, on a line of its own.
fn name_of(dialect: Dialect) -> &'static [u8] {
    match dialect {
        Dialect::Auto => b"auto\n",
        Dialect::BasicV2 => b"basicv2\n",
        Dialect::Tsb => b"tsb\n",
        Dialect::Basic35 => b"basic35\n",
    }
}

// Writes the dialect that Auto is for a text.
pub fn tell_dialect(rt: &HostRuntime, name: &[u8], text: &[u8]) -> Status {
    match resolve::resolved_dialect(text, Dialect::Auto) {
        Ok(dialect) => {
            desk_status::written(result::write_output(rt, name_of(dialect)), Status::Done)
        }
        Err(refusal) => {
            let told = sentence::refuse(rt, name, refusal);
            let is_numbered = output::put_number(rt, refusal);
            desk_status::written(told && is_numbered, Status::Refused)
        }
    }
}
