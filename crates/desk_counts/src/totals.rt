// Totals in files: 206 numbers of eight bytes, the low byte first. Several may stand one behind the other, as a pipe brings them.
ghost use Rattle.std.specs.Prelude.{◌≡◌, length};

use count_images::Carried;
use desk::line::Line;
use desk::{output, result, saying};
use desk_calls::{files, words};
use desk_status::Status;
use std::io::Read;

// No input has so many totals.
const MOST_TOTALS: usize = 1_000_000;

// Writes totals to standard output, at once: a pipe keeps them whole.
pub fn write(rt: &HostRuntime, totals: &[u64; 206]) -> bool {
    let mut bytes = [0u8; 1648];
    for (k, n) in totals.iter().enumerate() {
        bytes[8 * k..8 * k + 8].copy_from_slice(&n.to_le_bytes());
    }
    result::write_output(rt, &bytes)
}

// Joins the totals in the files that the arguments from the second on name; without names those of standard input.
pub fn join_files(rt: &HostRuntime, count: usize, totals: &mut [u64]) -> Status {
    if count < 3 {
        return join_all(rt, &mut rt.stdin(), b"standard input", totals);
    }
    for i in 2..count {
        let mut name = io::buffer();
        let joined = join_file(rt, words::word(rt, i, &mut name), totals);
        if joined != Status::Done {
            return joined;
        }
    }
    Status::Done
}

fn join_file(rt: &HostRuntime, name: &[u8], totals: &mut [u64]) -> Status {
    match files::open_read(rt, name) {
        Ok(mut file) => join_all(rt, &mut file, name, totals),
        Err(why) => {
            saying::fail(rt, name, why);
            Status::Failed
        }
    }
}

// Joins the totals up to the end of an input, which has some: where a part could not be counted, its file is empty. A proved loop has to end,
// and nothing says that the input does: there are at most 1,000 images, and of totals without one no archive has so many.
fn join_all<R: Read>(rt: &HostRuntime, from: &mut R, name: &[u8], totals: &mut [u64]) -> Status {
    for joined in 0..MOST_TOTALS {
        let mut bytes = [0u8; 1648];
        match desk_inputs::read_part(from, &mut bytes) {
            Ok(None) => {
                let status = join(rt, name, &bytes, totals);
                if status != Status::Done {
                    return status;
                }
            }
            Ok(Some(0)) if joined > 0 => return Status::Done,
            Ok(Some(_)) => return no_totals(rt, name),
            Err(why) => {
                saying::fail(rt, name, why);
                return Status::Failed;
            }
        }
    }
    no_totals(rt, name)
}

// Joins totals as they stand in a file.
fn join(rt: &HostRuntime, name: &[u8], bytes: &[u8; 1648], totals: &mut [u64]) -> Status {
    let mut other = [0u64; 206];
    for (n, eight) in other.iter_mut().zip(bytes.as_chunks::<8>().0) {
        *n = u64::from_le_bytes(*eight);
    }
    match count_images::join(totals, &other) {
        Carried::Taken | Carried::Apart(_) => Status::Done,
        Carried::Refused(refusal) => desk_status::written(
            output::tell(rt, name, refusal),
            Status::Refused,
        ),
        Carried::NoTotals => no_totals(rt, name),
    }
}

fn no_totals(rt: &HostRuntime, name: &[u8]) -> Status {
    let mut line = Line::<4352>::new();
    line.put(name);
    line.put(b": no totals, or totals cut short");
    saying::tell(rt, line.bytes());
    Status::Failed
}
