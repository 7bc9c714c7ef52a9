// Op 1B: counts over images.
ghost use Rattle.std.specs.Prelude.{◌≡◌, ◌+◌, ◌*◌, ◌≤◌, length};
ghost use Rattle.judge_frames.specs.FramesHelpers.{Sendable};

use base_refusals::Refusal;
use count_images::Carried;
use judge_frames::Answer;

// Counts the images one after another, and answers the totals, after 26 too.
pub fn count_images(payload: &[u8]) -> bool {
    if payload.len() < 4 {
        return judge_frames::reject();
    }
    let count = judge_frames::u32_at(payload, 0);
    count_all(&payload[4..], count)
}

fn count_all(images: &[u8], count: u32) -> bool {
    if !fills(images, count) {
        return judge_frames::reject();
    }
    let mut totals = [0u64; 206];
    let kept = take_all(images, &mut totals);
    send_totals(kept, &totals)
}

fn send_totals(kept: bool, totals: &[u64]) -> bool {
    let mut numbers = [0u8; 3176];
    put_totals(totals, &mut numbers);
    counted(kept).send_with(&numbers)
}

fn counted(kept: bool) -> Answer
    ensures { Sendable result }
{
    if kept {
        Answer::done()
    } else {
        Answer::refused(Refusal::TooManyImages)
    }
}

// Whether bytes are so many images, each behind its length, and nothing else.
fn fills(images: &[u8], count: u32) -> bool {
    let mut at: usize = 0;
    for _ in 0..count {
        if images.len() - at < 4 {
            return false;
        }
        let length = judge_frames::u32_at(images, at) as usize;
        if images.len() - at - 4 < length {
            return false;
        }
        at += 4 + length;
    }
    at == images.len()
}

// Takes each image into the totals; false where one was too many.
fn take_all(images: &[u8], totals: &mut [u64]) -> bool {
    let mut at: usize = 0;
    let mut kept = true;
    while images.len() - at >= 4 {
        let length = judge_frames::u32_at(images, at) as usize;
        if images.len() - at - 4 < length {
            return kept;
        }
        let from = at + 4;
        let to = from + length;
        kept = is_kept(totals, &images[from..to]) && kept;
        at = to;
    }
    kept
}

fn is_kept(totals: &mut [u64], image: &[u8]) -> bool {
    !matches!(count_images::add_image(totals, image), Carried::Refused(_))
}

// The answer's numbers: images taken, images refused, tokens counted, each token's count, each token's share.
fn put_totals(totals: &[u64], out: &mut [u8])
    requires { length out.old ≡ 3176 }
{
    put_number(out, 0, count_at(totals, count_totals::TAKEN));
    put_number(out, 1, count_at(totals, count_totals::REFUSED));
    put_number(out, 2, count_totals::tokens(totals));
    put_tokens(totals, out);
}

fn put_tokens(totals: &[u64], out: &mut [u8])
    requires { length out.old ≡ 3176 }
{
    for place in 0..197 {
        let token = count_images::token_at(place);
        put_number(out, 3 + place, count_at(totals, token as usize));
        put_number(out, 200 + place, count_totals::share(totals, token));
    }
}

fn count_at(totals: &[u64], k: usize) -> u64 {
    totals.get(k).copied().unwrap_or(0)
}

// Stores a number of eight bytes at its place among such numbers, the low byte first.
fn put_number(out: &mut [u8], place: usize, n: u64)
    requires { (place ≤ 396) × (8 * place + 8 ≤ length out.old) }
{
    out[8 * place..8 * place + 8].copy_from_slice(&n.to_le_bytes());
}
