// The batch driver: answers framed calls of the libraries' public functions, so that any judge can be held against them byte by byte. It reads
// a frame, calls one function and writes what came back.
#![tactic(auto)]

mod disks;

ghost use Rattle.std.specs.Prelude.{◌≤◌, length};

use image_readers::By;
use judge_calls::{
    counted, dialects, found, images, indexes, measured, relinked, rooms, texts, words,
};

// Answers one request; false where the answer could not be written. A disk that a call changes is copied first: it stands in the payload beside
// what else the call is lent.
fn answer_request(op: u8, payload: &[u8], room: &mut [u8], disk: &mut [u8]) -> bool
    requires { length payload.now ≤ length disk.old }
{
    match op {
        0x01 | 0x0A | 0x10 | 0x14 | 0x16 | 0x1C | 0x1F | 0x30 => rooms::answer(op, payload, room),
        0x02 | 0x0B | 0x11 | 0x15 | 0x17 | 0x31 => rooms::measure(op, payload),
        0x20 | 0x21 | 0x23 => disks::change(op, payload, disk),
        0x22 => disks::read(payload, room),
        _ => answer_plain(op, payload),
    }
}

// Answers a request for which nothing is lent.
fn answer_plain(op: u8, payload: &[u8]) -> bool {
    match op {
        0x03 => texts::resolved_dialect(payload),
        0x04 => words::dialect_by_name(payload),
        0x05 => words::is_tsb_word(payload),
        0x06 => images::check(payload, By::Terminators),
        0x07 => images::step(payload, By::Terminators, false),
        0x08 => images::check(payload, By::Links),
        0x09 => images::step(payload, By::Links, false),
        0x12 => found::line_by_number(payload),
        0x13 => dialects::default_load(payload),
        0x18 => images::step(payload, By::Terminators, true),
        0x19 => images::step(payload, By::Links, true),
        0x1A => measured::measured_line(payload),
        0x1B => counted::count_images(payload),
        0x1D => indexes::look_up(payload),
        0x1E => indexes::entry(payload),
        0x24 => disks::check(payload),
        0x34 => relinked::relink(payload),
        _ => judge_frames::reject(),
    }
}

// Reads a payload of a size and answers the request; true if another can follow. The buffers' lengths are the frames' limits: that of payload
// for a payload, that of room for a lent buffer.
fn serve_op(
    rt: &HostRuntime,
    op: u8,
    size: usize,
    payload: &mut [u8],
    room: &mut [u8],
    disk: &mut [u8],
) -> bool
    requires { length payload.old ≤ length disk.old }
{
    if size > payload.len() {
        judge_frames::reject();
        return false;
    }
    let Ok(None) = desk_inputs::read_part(&mut rt.stdin(), &mut payload[..size]) else {
        return false;
    };
    answer_request(op, &payload[..size], room, disk)
}

// Reads a request and answers it.
fn serve(rt: &HostRuntime, payload: &mut [u8], room: &mut [u8], disk: &mut [u8]) -> bool
    requires { length payload.old ≤ length disk.old }
{
    let mut head = [0u8; 5];
    let Ok(None) = desk_inputs::read_part(&mut rt.stdin(), &mut head) else {
        return false;
    };
    let size = judge_frames::u32_at(&head, 1) as usize;
    serve_op(rt, head[0], size, payload, room, disk)
}

// A proved loop has to end, and nothing says that the input does: it has more turns than a run uses up.
fn serve_all(rt: &HostRuntime, payload: &mut [u8], room: &mut [u8], disk: &mut [u8])
    requires { length payload.old ≤ length disk.old }
{
    for _ in 0..u64::MAX {
        if !serve(rt, payload, room, disk) {
            return;
        }
    }
}

fn main(rt: HostRuntime) {
    let mut payload = [0u8; 1_048_593];
    let mut room = [0u8; 524_288];
    let mut disk = [0u8; 1_048_593];
    serve_all(&rt, &mut payload, &mut room, &mut disk);
}
