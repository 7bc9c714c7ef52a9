// What is written. Every write's answer is looked at, and standard error names what failed.
ghost use Rattle.std.specs.Prelude.{◌≤◌, length};
ghost use Rattle.desk.specs.ResultHelpers.{Holds};

use crate::{names, result, saying};
use base_refusals::{Code, Refusal};
use desk_status::Status;

fn write_line(rt: &HostRuntime, name: &[u8], text: &[u8], code: Code) -> bool
    requires { length text.now ≤ 1048576 }
{
    let mut line = [0u8; 4352];
    let n = say_sentences::message(name, text, code, &mut line);
    saying::tell(rt, &line[..n])
}

// Writes the sentence of a refusal that speaks of a file to standard error, behind the file's name.
pub fn tell(rt: &HostRuntime, name: &[u8], refusal: Refusal) -> bool {
    write_line(rt, name, b"", base_refusals::refusal_code(refusal))
}

// Writes the sentence of a refusal to standard error. Where that fails, the status tells.
fn write_sentence(rt: &HostRuntime, code: Code, text: &[u8]) -> bool
    requires { length text.now ≤ 1048576 }
{
    let mut name = io::buffer();
    write_line(rt, names::input_name(rt, &mut name), text, code)
}

// Writes the number of a refusal to standard output, in the place of a result.
pub fn put_number(rt: &HostRuntime, refusal: Refusal) -> bool {
    let code = base_refusals::refusal_code(refusal);
    let mut line = [0u8; 20];
    let n = io::decimal(code.number as u64, &mut line);
    result::write_output(rt, &line[..n]) && result::write_output(rt, b"\n")
}

// The same, where the result would have gone there.
fn write_number(rt: &HostRuntime, refusal: Refusal) -> bool {
    names::is_file(rt, names::OUT) || put_number(rt, refusal)
}

// Tells the status, last of all.
fn end(rt: &HostRuntime, status: Status, is_written: bool) {
    if names::given(rt) {
        desk_status::tell(desk_status::written(is_written, status));
    }
}

// Ends a program that was refused a result for what this name stands for.
pub fn refuse_for(rt: &HostRuntime, name: &[u8], refusal: Refusal) {
    let code = base_refusals::refusal_code(refusal);
    let is_told = write_line(rt, name, b"", code);
    let is_numbered = write_number(rt, refusal);
    end(rt, Status::Refused, is_told && is_numbered);
}

// Ends a program that was refused a result; text is what the refusal speaks of.
pub fn refuse(rt: &HostRuntime, refusal: Refusal, text: &[u8])
    requires { length text.now ≤ 1048576 }
{
    let code = base_refusals::refusal_code(refusal);
    let is_told = write_sentence(rt, code, text);
    let is_numbered = write_number(rt, refusal);
    end(rt, Status::Refused, is_told && is_numbered);
}

// Ends a program whose input could not be read.
pub fn fail(rt: &HostRuntime) {
    end(rt, Status::Failed, true);
}

// Ends a program whose result was written, or could not be.
pub fn done(rt: &HostRuntime, written: bool) {
    end(rt, Status::Done, written);
}

// Ends a program with its result, the first bytes of a buffer, or with its refusal.
pub fn answer(rt: &HostRuntime, outcome: Result<usize, Refusal>, bytes: &[u8], text: &[u8])
    requires { Holds outcome bytes.now × (length text.now ≤ 1048576) }
{
    match outcome {
        Ok(n) => done(rt, result::write_whole(rt, &bytes[..n])),
        Err(refusal) => refuse(rt, refusal, text),
    }
}
