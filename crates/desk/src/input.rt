// What is read of the input that a program was given, or of a file by its name. Standard error names what could not be read.
ghost use Rattle.std.specs.Prelude.{IfSome};
ghost use Rattle.io.specs.Counts.{IsPrefixLen};
ghost use Rattle.desk_inputs.specs.CountedHelpers.{InputWithin};

use crate::{names, output, saying};
use base_refusals::Refusal;
use desk_calls::files;
use std::io::{Read, Result};

// What was read, after standard error has named what could not be.
fn read_from<R: Read>(
    rt: &HostRuntime,
    from: &mut R,
    name: &[u8],
    buf: &mut [u8],
) -> Result<Option<usize>>
    ensures { InputWithin result buf.new }
{
    desk_inputs::read_input(from, buf).inspect_err(|why| saying::fail(rt, name, *why))
}

// Reads a whole file.
pub fn read_file(rt: &HostRuntime, name: &[u8], buf: &mut [u8]) -> Result<Option<usize>>
    ensures { InputWithin result buf.new }
{
    let opened = files::open_read(rt, name).inspect_err(|why| saying::fail(rt, name, *why));
    read_from(rt, &mut opened?, name, buf)
}

// Reads all of standard input.
pub fn read_standard(rt: &HostRuntime, buf: &mut [u8]) -> Result<Option<usize>>
    ensures { InputWithin result buf.new }
{
    read_from(rt, &mut rt.stdin(), b"standard input", buf)
}

// Reads the program's input: the file that it was given, or standard input.
pub fn read_given(rt: &HostRuntime, buf: &mut [u8]) -> Result<Option<usize>>
    ensures { InputWithin result buf.new }
{
    if !names::is_file(rt, names::IN) {
        return read_standard(rt, buf);
    }
    let mut name = io::buffer();
    read_file(rt, names::name(rt, names::IN, &mut name), buf)
}

// The same for a program that ends without it: nothing where it has ended, since the input could not be read, or is longer than the buffer and was
// refused for that.
pub fn read_or_end(rt: &HostRuntime, longer: Refusal, buf: &mut [u8]) -> Option<usize>
    ensures { IfSome result (λ count. IsPrefixLen count buf.new) }
{
    match read_given(rt, buf) {
        Ok(Some(count)) => Some(count),
        Ok(None) => {
            output::refuse(rt, longer, b"");
            None
        }
        Err(_) => {
            output::fail(rt);
            None
        }
    }
}
