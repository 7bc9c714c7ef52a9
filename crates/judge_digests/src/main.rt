// Prints the SHA-256 of standard input as sha256sum does, for oracle/digests: in pieces, two of each read.
#![tactic(auto)]

use digest_sha256::State;

// The descriptors of standard input and output.
const STDIN_FILENO: i32 = 0;

const STDOUT_FILENO: i32 = 1;

fn add_both(state: State, bytes: &[u8]) -> State {
    let cut = bytes.len() / 3;
    let first = digest_sha256::add(state, &bytes[..cut]);
    digest_sha256::add(first, &bytes[cut..])
}

// A proved loop has to end, and nothing says that an input does: it has more turns than a run uses up.
fn main() {
    let mut buffer = io::buffer();
    let mut state = digest_sha256::start();
    for _ in 0..u64::MAX {
        let count = io::read_full(STDIN_FILENO, &mut buffer);
        if count == 0 {
            break;
        }
        state = add_both(state, &buffer[..count]);
    }
    let digest = digest_sha256::hex(digest_sha256::finish(state));
    io::write_all(STDOUT_FILENO, &digest);
    io::write_all(STDOUT_FILENO, b"  -\n");
}
