// Op 1A: the line at a place of the image that a text would have.
use crate::texts;
use crunch_rules::{MeasuredLine, Options};
use judge_frames::Answer;

pub fn measured_line(payload: &[u8]) -> bool {
    if payload.len() < 12 {
        return judge_frames::reject();
    }
    let place = judge_frames::u64_at(payload, 4) as usize;
    match texts::with_options(payload) {
        Some(options) => send_line(&payload[12..], options, place),
        None => judge_frames::reject(),
    }
}

fn send_line(text: &[u8], options: Options, place: usize) -> bool {
    match crunch_image::measured_line(text, options, place) {
        Ok(Some(found)) => send_measured(found),
        Ok(None) => judge_frames::tell(0),
        Err(refusal) => judge_frames::refuse(refusal),
    }
}

// Address, link, number, body length, text line.
fn send_measured(found: MeasuredLine) -> bool {
    let line = found.line;
    Answer::done()
        .byte(1)
        .number(line.address)
        .number(usize::from(line.link))
        .number(usize::from(line.number))
        .number(line.to.saturating_sub(line.from))
        .number(found.origin)
        .send()
}
