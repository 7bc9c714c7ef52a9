// The frames of the batch driver: the numbers of a request, the answer to it, and the buffers that are lent to a call.
#![tactic(auto)]

pub mod rooms;

ghost use Rattle.std.specs.Prelude.{◌≡◌, ◌+◌, ◌≤◌, length};
ghost use Rattle.judge_frames.specs.FramesHelpers.{u16_at, u32_at, u64_at, Sendable};

use base_refusals::Refusal;

// Where the answers go: standard output.
const STDOUT_FILENO: i32 = 1;

// The number of two bytes at a place, the low byte first; then of four and of eight.
pub fn u16_at(bytes: &[u8], at: usize) -> u16
    requires { at + 2 ≤ length bytes.now }
    ensures { result ≡ u16_at bytes.now at }
{
    u16::from_le_bytes([bytes[at], bytes[at + 1]])
}

pub fn u32_at(bytes: &[u8], at: usize) -> u32
    requires { at + 4 ≤ length bytes.now }
    ensures { result ≡ u32_at bytes.now at }
{
    u32::from(u16_at(bytes, at)) + 65_536 * u32::from(u16_at(bytes, at + 2))
}

pub fn u64_at(bytes: &[u8], at: usize) -> u64
    requires { at + 8 ≤ length bytes.now }
    ensures { result ≡ u64_at bytes.now at }
{
    u64::from(u32_at(bytes, at)) + 4_294_967_296 * u64::from(u32_at(bytes, at + 4))
}

// An answer while it is put together. Its first four bytes are kept for the length of its body, which is known last.
#[derive(Clone, Copy)]
pub struct Answer {
    pub bytes: [u8; 64],
    pub len: usize,
}

impl Answer {
    // A body that begins with a byte: 00, FF, or the number of a refusal.
    pub fn beginning(first: u8) -> Self
        ensures { result.len ≡ 5 }
    {
        let mut bytes = [0u8; 64];
        bytes[4] = first;
        Answer { bytes, len: 5 }
    }

    // A call that was done. Its results follow.
    pub fn done() -> Self
        ensures { result.len ≡ 5 }
    {
        Answer::beginning(0)
    }

    // A request that stands for no call.
    pub fn malformed() -> Self
        ensures { result.len ≡ 5 }
    {
        Answer::beginning(0xFF)
    }

    // A call that was refused: the refusal's number and its values.
    pub fn refused(refusal: Refusal) -> Self
        ensures { Sendable result }
    {
        let code = base_refusals::refusal_code(refusal);
        let bare = Answer::beginning(code.number);
        match code.count {
            0 => bare,
            1 => bare.number(code.first),
            _ => bare.number(code.first).number(code.second),
        }
    }

    pub fn byte(mut self, b: u8) -> Self
        requires { self.len + 1 ≤ 64 }
        ensures { result.len ≡ self.len + 1 }
    {
        let at = self.len;
        self.bytes[at] = b;
        self.len = at + 1;
        self
    }

    // A number of eight bytes.
    pub fn number(mut self, n: usize) -> Self
        requires { self.len + 8 ≤ 64 }
        ensures { result.len ≡ self.len + 8 }
    {
        let at = self.len;
        self.bytes[at..at + 8].copy_from_slice(&(n as u64).to_le_bytes());
        self.len = at + 8;
        self
    }

    // Writes the answer; false where it cannot be written.
    pub fn send(self) -> bool
        requires { Sendable self }
    {
        self.send_with(b"")
    }

    // The same for an answer whose body ends with these bytes.
    pub fn send_with(self, behind: &[u8]) -> bool
        requires { Sendable self }
    {
        self.send_before(behind.len()) && io::write_all(STDOUT_FILENO, behind)
    }

    // The same for a body that ends with two runs of bytes.
    pub fn send_with_both(self, behind: &[u8], last: &[u8]) -> bool
        requires { Sendable self }
    {
        // The frame has four bytes for the length.
        let more = last.len() % 4_294_967_296;
        self.send_before(behind.len() + more)
            && io::write_all(STDOUT_FILENO, behind)
            && io::write_all(STDOUT_FILENO, last)
    }

    // Writes the answer before so many bytes, which end its body.
    fn send_before(mut self, behind: usize) -> bool
        requires { Sendable self × (behind ≤ 10000000000000000000) }
    {
        let size = (self.len - 4 + behind) % 4_294_967_296;
        self.bytes[..4].copy_from_slice(&(size as u32).to_le_bytes());
        io::write_all(STDOUT_FILENO, &self.bytes[..self.len])
    }
}

// The answer of a call with a lent buffer, or of one that measures.
pub fn length_of(outcome: Result<usize, Refusal>) -> Answer
    ensures { Sendable result }
{
    match outcome {
        Ok(n) => Answer::done().number(n),
        Err(refusal) => Answer::refused(refusal),
    }
}

// Answers a request that stands for no call.
pub fn reject() -> bool {
    Answer::malformed().send()
}

// Answers with a refusal alone.
pub fn refuse(refusal: Refusal) -> bool {
    Answer::refused(refusal).send()
}

// Answers with one byte of results.
pub fn tell(byte: u8) -> bool {
    Answer::done().byte(byte).send()
}
