// Op 34: what the machine makes of a program's links.
use image_relink::Relinked;
use judge_frames::Answer;

// 0 for links that stay; 1, the offset of the first that does not and the new one; 2 where the image is left; 3 for no end.
pub fn relink(image: &[u8]) -> bool {
    match image_relink::relink(image) {
        Ok(Relinked::Same) => judge_frames::tell(0),
        Ok(Relinked::Changed { offset, link }) => send_changed(offset, link),
        Ok(Relinked::Leaves) => judge_frames::tell(2),
        Ok(Relinked::Endless) => judge_frames::tell(3),
        Err(refusal) => judge_frames::refuse(refusal),
    }
}

fn send_changed(offset: usize, link: u16) -> bool {
    Answer::done()
        .byte(1)
        .number(offset)
        .number(usize::from(link))
        .send()
}
