// Ops 20 to 24: the calls on disks. A disk is the rest of the payload, and every answer ends with its bytes as the call left them.
ghost use Rattle.std.specs.Prelude.{◌≤◌, length};

use base_refusals::Refusal;
use judge_frames::{Answer, rooms};

// Where the name ends that bytes begin with, behind its length; beyond bytes that are too short for one.
fn name_end(bytes: &[u8]) -> usize
    ensures { (2 ≤ result) × (result ≤ 65537) }
{
    if bytes.len() < 2 {
        return 2;
    }
    2 + usize::from(judge_frames::u16_at(bytes, 0))
}

// The same for a file.
fn file_end(bytes: &[u8]) -> usize
    ensures { 4 ≤ result }
{
    if bytes.len() < 4 {
        return 4;
    }
    4 + judge_frames::u32_at(bytes, 0) as usize
}

// Copies bytes to the start of a buffer, and answers how many.
fn copied(from: &[u8], to: &mut [u8]) -> usize
    requires { length from.now ≤ length to.old }
    ensures { result ≤ length to.new }
{
    let size = from.len();
    to[..size].copy_from_slice(from);
    size
}

// Formats a disk, saves a file on it or scratches one.
pub fn change(op: u8, payload: &[u8], disk: &mut [u8]) -> bool
    requires { length payload.now ≤ length disk.old }
{
    match op {
        0x20 => format(payload, disk),
        0x21 => save(payload, disk),
        _ => scratch(payload, disk),
    }
}

fn format(payload: &[u8], disk: &mut [u8]) -> bool
    requires { length payload.now ≤ length disk.old }
{
    let size = copied(payload, disk);
    let changed = disk::format(&mut disk[..size]);
    send_changed(changed, &disk[..size])
}

fn save(payload: &[u8], disk: &mut [u8]) -> bool
    requires { length payload.now ≤ length disk.old }
{
    let end = name_end(payload);
    if end > payload.len() {
        return judge_frames::reject();
    }
    save_named(&payload[2..end], &payload[end..], disk)
}

fn save_named(name: &[u8], left: &[u8], disk: &mut [u8]) -> bool
    requires { length left.now ≤ length disk.old }
{
    let end = file_end(left);
    if end > left.len() {
        return judge_frames::reject();
    }
    save_file(name, &left[4..end], &left[end..], disk)
}

fn save_file(name: &[u8], file: &[u8], given: &[u8], disk: &mut [u8]) -> bool
    requires { length given.now ≤ length disk.old }
{
    let size = copied(given, disk);
    let changed = disk::save(&mut disk[..size], name, file);
    send_changed(changed, &disk[..size])
}

fn scratch(payload: &[u8], disk: &mut [u8]) -> bool
    requires { length payload.now ≤ length disk.old }
{
    let end = name_end(payload);
    if end > payload.len() {
        return judge_frames::reject();
    }
    scratch_named(&payload[2..end], &payload[end..], disk)
}

fn scratch_named(name: &[u8], given: &[u8], disk: &mut [u8]) -> bool
    requires { length given.now ≤ length disk.old }
{
    let size = copied(given, disk);
    let changed = disk::scratch(&mut disk[..size], name);
    send_changed(changed, &disk[..size])
}

pub fn read(payload: &[u8], room: &mut [u8]) -> bool {
    if payload.len() < 4 {
        return judge_frames::reject();
    }
    let size = judge_frames::u32_at(payload, 0) as usize;
    if size > room.len() {
        return judge_frames::reject();
    }
    read_named(&payload[4..], &mut room[..size])
}

fn read_named(left: &[u8], room: &mut [u8]) -> bool {
    let end = name_end(left);
    if end > left.len() {
        return judge_frames::reject();
    }
    rooms::fill(room);
    let outcome = disk::read(&left[end..], &left[2..end], room);
    send_read(outcome, room, &left[end..])
}

fn send_read(outcome: Result<usize, Refusal>, room: &[u8], disk: &[u8]) -> bool {
    judge_frames::length_of(outcome).send_with_both(room, disk)
}

pub fn check(disk: &[u8]) -> bool {
    match disk::check(disk) {
        Ok(held) => Answer::done()
            .number(held.files)
            .number(held.free)
            .send_with(disk),
        Err(refusal) => Answer::refused(refusal).send_with(disk),
    }
}

fn send_changed(changed: Result<(), Refusal>, disk: &[u8]) -> bool {
    match changed {
        Ok(()) => Answer::done().send_with(disk),
        Err(refusal) => Answer::refused(refusal).send_with(disk),
    }
}
