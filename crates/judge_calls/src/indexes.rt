// Ops 1D and 1E: a target in a line index, an entry of one.
use image_index_entries::{Kind, Numbers};
use judge_frames::Answer;

pub fn look_up(payload: &[u8]) -> bool {
    if payload.len() < 2 {
        return judge_frames::reject();
    }
    let number = usize::from(judge_frames::u16_at(payload, 0));
    send_held(image_index_entries::look_up(number, &payload[2..]))
}

pub fn entry(payload: &[u8]) -> bool {
    if payload.len() < 9 {
        return judge_frames::reject();
    }
    let place = judge_frames::u64_at(payload, 1) as usize;
    match payload[0] {
        0 => send_entry(Kind::Line, place, &payload[9..]),
        1 => send_entry(Kind::Jump, place, &payload[9..]),
        _ => judge_frames::reject(),
    }
}

fn send_entry(kind: Kind, place: usize, index: &[u8]) -> bool {
    send_held(image_index_entries::entry(kind, place, index))
}

// 0 where an index holds nothing, or 1 and two numbers.
fn send_held(held: Option<Numbers>) -> bool {
    match held {
        None => judge_frames::tell(0),
        Some(Numbers { first, second }) => Answer::done()
            .byte(1)
            .number(first)
            .number(second)
            .send(),
    }
}
