// Op 12: a line by its number.
use crate::images;
use image_find::Sought;
use image_readers::Line;
use judge_frames::Answer;

pub fn line_by_number(payload: &[u8]) -> bool {
    if payload.len() < 10 {
        return judge_frames::reject();
    }
    let number = judge_frames::u16_at(payload, 0);
    let limit = judge_frames::u64_at(payload, 2) as usize;
    send_sought(&payload[10..], number, limit)
}

fn send_sought(image: &[u8], number: u16, limit: usize) -> bool {
    match image_find::find_line(image, number, limit) {
        Ok(Sought::Found { visited, line }) => send_found(image, visited, line),
        Ok(Sought::Nowhere { visited }) => Answer::done().number(visited).byte(0).send(),
        Ok(Sought::LimitReached) => Answer::beginning(19).send(),
        Err(refusal) => judge_frames::refuse(refusal),
    }
}

fn send_found(image: &[u8], visited: usize, line: Line) -> bool {
    let answer = Answer::done().number(visited).byte(1);
    images::send_line(answer, line, image_find::body(image, line))
}
