// A line by its number: where it stands, how far it was looked for, and its listing.
ghost use Rattle.std.specs.Prelude.{◌≤◌, length};

use desk::result::Target;
use desk::{names, output, result, saying};
use desk_status::Status;
use image_find::Sought;
use image_readers::{By, Line};
use list_options::ListOptions;
use word_dialects::Dialect;

// As `list --links` lists.
fn as_linked() -> ListOptions {
    ListOptions {
        dialect: Dialect::Auto,
        remarks: false,
        by: By::Links,
    }
}

// Writes the row of a line, and its listing.
fn write_found(rt: &HostRuntime, row: &[u8], image: &[u8], line: Line) -> bool {
    let mut out = [0u8; 8192];
    result::write_output(rt, row)
        && desk_lines::write_line(
            rt,
            &Target::Output,
            line.number,
            image_find::body(image, line),
            as_linked(),
            &mut out,
        )
}

fn show_found(rt: &HostRuntime, image: &[u8], line: Line, visited: usize) {
    let mut row = [0u8; 128];
    match image_rows::lend_found(line, visited, &mut row) {
        Ok(n) => output::done(rt, write_found(rt, &row[..n], image, line)),
        Err(refusal) => output::refuse(rt, refusal, b""),
    }
}

// Says on standard error that no line has the number.
fn tell_missing(rt: &HostRuntime, name: &[u8], number: u16, visited: usize) -> bool
    requires { length name.now ≤ 4352 }
{
    let mut row = [0u8; 4608];
    match image_rows::lend_missing(name, number, visited, &mut row) {
        Ok(n) => saying::tell(rt, &row[..n]),
        Err(refusal) => output::tell(rt, name, refusal),
    }
}

// The same of what was read.
fn tell_given(rt: &HostRuntime, number: u16, visited: usize) -> bool {
    let mut name = io::buffer();
    tell_missing(rt, names::input_name(rt, &mut name), number, visited)
}

// Ends the program where no line has the number.
fn miss(rt: &HostRuntime, number: u16, visited: usize) {
    if tell_given(rt, number, visited) {
        desk_status::tell(Status::Refused);
    } else {
        output::fail(rt);
    }
}

pub fn find(rt: &HostRuntime, image: &[u8], number: u16) {
    // No image has as many lines as bytes: the limit is not reached.
    match image_find::find_line(image, number, image.len()) {
        Ok(Sought::Found { visited, line }) => show_found(rt, image, line, visited),
        Ok(Sought::Nowhere { visited }) => miss(rt, number, visited),
        Ok(Sought::LimitReached) => output::fail(rt),
        Err(refusal) => output::refuse(rt, refusal, b""),
    }
}
