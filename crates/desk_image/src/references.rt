// Which lines jump where: the rows of crate `image_rows`, of the lines and jumps in the image's index.
ghost use Rattle.std.specs.Prelude.{◌≤◌, length};

use desk::output;
use image_rows::jumps;

fn show_rows(
    rt: &HostRuntime,
    rows: &mut [u8],
    index: &[u8],
    firsts: &[usize],
    nexts: &[usize],
    marked: &[u8],
)
    requires { (length firsts.now ≤ 65536) × (length nexts.now ≤ 65536) }
{
    let outcome = jumps::lend_jumps(index, firsts, nexts, marked, rows);
    output::answer(rt, outcome, rows, b"");
}

// No image of 65,536 bytes has more to show: a jump's line takes at most 6 bytes, and there are fewer than 32,768 jumps; a target takes 17 more,
// and fewer than 13,000 numbers have room beside each other.
fn show_threaded(rt: &HostRuntime, index: &[u8], firsts: &[usize], nexts: &[usize], marked: &[u8])
    requires { (length firsts.now ≤ 65536) × (length nexts.now ≤ 65536) }
{
    let mut rows = [0u8; 524_288];
    show_rows(rt, &mut rows, index, firsts, nexts, marked);
}

fn show_from(rt: &HostRuntime, index: &[u8], firsts: &mut [usize], marked: &[u8])
    requires { length firsts.old ≤ 65536 }
{
    // One more than the jumps that 65,536 bytes can hold: each takes two.
    let mut nexts = [0usize; 32_768];
    image_references::thread(index, firsts, &mut nexts);
    show_threaded(rt, index, firsts, &nexts, marked);
}

fn show_marked(rt: &HostRuntime, index: &[u8], marked: &[u8]) {
    let mut firsts = [0usize; 65_536];
    show_from(rt, index, &mut firsts, marked);
}

fn show_index(rt: &HostRuntime, image: &[u8], index: &[u8]) {
    let mut marked = [0u8; 65_536];
    image_marks::mark_numbers(image, &mut marked);
    show_marked(rt, index, &marked);
}

fn show_in(rt: &HostRuntime, index: &mut [u8], image: &[u8]) {
    match image_index::write_index(image, index) {
        Ok(n) => show_index(rt, image, &index[..n]),
        Err(refusal) => output::refuse(rt, refusal, b""),
    }
}

// A call of its own, so that no other command takes the stack of these buffers.
#[inline(never)]
pub fn show(rt: &HostRuntime, image: &[u8]) {
    let mut index = [0u8; 131_072];
    show_in(rt, &mut index, image);
}
