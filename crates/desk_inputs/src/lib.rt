// What is read, into a lent buffer: the end of the input, a read that failed and an input that is longer than the buffer are told apart. Each
// function ends, also on an input that never does, given that each read returns. A read that a signal interrupts counts as failed.
#![tactic(auto)]

ghost use Rattle.std.specs.Prelude.{◌≤◌};
ghost use Rattle.desk_inputs.specs.CountedHelpers.{PartWithin, InputWithin, input_count};

use std::io::{Read, Result};

// Fills buf; where the input ended before it was full, behind how many bytes. For an empty buffer nothing is read.
pub fn read_part<R: Read>(from: &mut R, buf: &mut [u8]) -> Result<Option<usize>>
    ensures { PartWithin result buf.new }
{
    let mut done: usize = 0;
    while done < buf.len() {
        let more = from.read(&mut buf[done..])?;
        if more == 0 {
            return Ok(Some(done));
        }
        done += more;
    }
    Ok(None)
}

// Reads up to the end of the input: how many bytes it is, which stand at the buffer's start. Nothing where it is longer than the buffer, which is
// full then: one byte of what follows has been read, and is lost.
pub fn read_input<R: Read>(from: &mut R, buf: &mut [u8]) -> Result<Option<usize>>
    ensures { InputWithin result buf.new }
{
    match read_part(from, buf)? {
        Some(count) => Ok(Some(count)),
        None => ending(from, buf.len()),
    }
}

// A full buffer of count bytes holds the whole input if nothing follows.
fn ending<R: Read>(from: &mut R, count: usize) -> Result<Option<usize>>
    ensures { input_count result ≤ count }
{
    let mut spare = [0u8; 1];
    let end = read_part(from, &mut spare)?;
    Ok(end.map(|_| count))
}
