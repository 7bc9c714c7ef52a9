// Ops 06 to 09, 18 and 19: the readers.
ghost use Rattle.std.specs.Prelude.{◌≤◌};

use image_readers::{By, Line};
use judge_frames::Answer;

pub fn check(image: &[u8], by: By) -> bool {
    match image_readers::check_by(image, by) {
        Ok(seen) => Answer::done()
            .number(usize::from(seen.load))
            .number(seen.lines)
            .send(),
        Err(refusal) => judge_frames::refuse(refusal),
    }
}

// The line at an offset, with its address in memory where that is asked for.
pub fn step(payload: &[u8], by: By, is_addressed: bool) -> bool {
    if payload.len() < 8 {
        return judge_frames::reject();
    }
    let offset = judge_frames::u64_at(payload, 0) as usize;
    send_step(&payload[8..], offset, by, is_addressed)
}

fn send_step(image: &[u8], offset: usize, by: By, is_addressed: bool) -> bool {
    match image_readers::step_by(image, offset, by) {
        Ok(Some(line)) => send_line(
            found(line, is_addressed),
            line,
            image_readers::body_by(image, offset, by),
        ),
        Ok(None) => judge_frames::tell(0),
        Err(refusal) => judge_frames::refuse(refusal),
    }
}

fn found(line: Line, is_addressed: bool) -> Answer
    ensures { (5 ≤ result.len) × (result.len ≤ 32) }
{
    let answer = Answer::done().byte(1);
    if is_addressed {
        answer.number(line.address)
    } else {
        answer
    }
}

// A line behind what the answer holds: link, number, next offset, body length, body.
pub fn send_line(answer: Answer, line: Line, body: &[u8]) -> bool
    requires { (5 ≤ answer.len) × (answer.len ≤ 32) }
{
    answer
        .number(usize::from(line.link))
        .number(usize::from(line.number))
        .number(line.next)
        .number(body.len())
        .send_with(body)
}
