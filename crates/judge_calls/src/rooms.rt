// Ops 01, 02, 0A, 0B, 10, 11, 14 to 17, 1C, 1F, 30 and 31: the calls that write into a lent buffer, and those that tell the room for it.
ghost use Rattle.std.specs.Prelude.{◌≤◌};

use crate::texts;
use base_refusals::Refusal;
use crunch_rules::Options;
use image_readers::By;
use judge_frames::rooms;
use list_options::ListOptions;

#[derive(Clone, Copy)]
pub enum Call {
    Crunch(Options),
    List,
    ListUnder(ListOptions),
    // The line index, and the report of jumps with no target.
    Index,
    Report,
}

// How many bytes of a payload say what is called.
fn head_of(op: u8) -> usize
    ensures { result ≤ 4 }
{
    match op {
        0x01 | 0x02 => 3,
        0x10 | 0x11 => 4,
        0x14..=0x17 => 1,
        0x30 | 0x31 => 2,
        _ => 0,
    }
}

// What a request asks for, if it stands for a call.
fn request_of(op: u8, payload: &[u8]) -> Option<Call> {
    match op {
        0x01 | 0x02 => Some(Call::Crunch(texts::plain(payload)?)),
        0x0A | 0x0B => Some(Call::List),
        0x10 | 0x11 => Some(Call::Crunch(texts::with_options(payload)?)),
        0x14 | 0x15 => listing_under(*payload.first()?, 0, By::Terminators),
        0x16 | 0x17 => listing_under(*payload.first()?, 1, By::Terminators),
        0x1C => Some(Call::Index),
        0x1F => Some(Call::Report),
        _ => listing_by_links(payload),
    }
}

// By links, in the mode that the payload names.
fn listing_by_links(payload: &[u8]) -> Option<Call> {
    match payload {
        [dialect, mode, ..] => listing_under(*dialect, *mode, By::Links),
        _ => None,
    }
}

// A dialect's byte, and a mode's: 0 the old one, 1 the second.
fn listing_under(dialect: u8, mode: u8, by: By) -> Option<Call> {
    if mode > 1 {
        return None;
    }
    Some(Call::ListUnder(ListOptions {
        dialect: word_dialects::dialect_by_number(dialect).ok()?,
        remarks: mode == 1,
        by,
    }))
}

// Answers a call with a lent buffer. Behind the head the payload has the buffer's size, and what is read.
pub fn answer(op: u8, payload: &[u8], room: &mut [u8]) -> bool {
    let from = head_of(op) + 4;
    if payload.len() < from {
        return judge_frames::reject();
    }
    let size = judge_frames::u32_at(payload, from - 4) as usize;
    if size > room.len() {
        return judge_frames::reject();
    }
    answer_in(request_of(op, payload), &payload[from..], &mut room[..size])
}

fn answer_in(request: Option<Call>, input: &[u8], room: &mut [u8]) -> bool {
    let Some(call) = request else {
        return judge_frames::reject();
    };
    rooms::fill(room);
    judge_frames::length_of(written(call, input, room)).send_with(room)
}

fn written(call: Call, input: &[u8], room: &mut [u8]) -> Result<usize, Refusal> {
    match call {
        Call::Crunch(options) => crunch_image::crunch(input, options, room),
        Call::List => list_image::list(input, room),
        Call::ListUnder(options) => list_image::list_under(input, options, room),
        Call::Index => image_index::write_index(input, room),
        Call::Report => image_index::write_report(input, room),
    }
}

// Answers with the room for a call.
pub fn measure(op: u8, payload: &[u8]) -> bool {
    let from = head_of(op);
    if payload.len() < from {
        return judge_frames::reject();
    }
    match request_of(op, payload) {
        Some(call) => send_room(call, &payload[from..]),
        None => judge_frames::reject(),
    }
}

// The room for an index or a report is no call.
fn send_room(call: Call, input: &[u8]) -> bool {
    match call {
        Call::Crunch(options) => send_length(crunch_image::room(input, options)),
        Call::List => send_length(list_image::room(input)),
        Call::ListUnder(options) => send_length(list_image::room_under(input, options)),
        Call::Index | Call::Report => judge_frames::reject(),
    }
}

fn send_length(outcome: Result<usize, Refusal>) -> bool {
    judge_frames::length_of(outcome).send()
}
