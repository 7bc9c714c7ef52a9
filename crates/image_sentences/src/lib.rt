// What makes a program unfit for the master, and whether a program or a disk is fit: each a line for a person, behind the name of what was read.
// Such a line goes into a lent buffer whole, or the room that it needs is told.
#![tactic(auto)]

ghost use Rattle.std.specs.Prelude.{◌≡◌, ◌≤◌, length};
ghost use Rattle.base_refusals.specs.Answer.{done};
ghost use Rattle.base_lent.specs.Lent.{into_buffer, left};
ghost use Rattle.say_put.specs.Rows.{row_text};
ghost use Rattle.image_sentences.specs.Sentences.{target_sentence, fault_sentence, program_sentence, disk_sentence, refused_sentence};

use base_refusals::Refusal;
use image_faults::Fault;
use say_put::lend_row;

// The rows. # stands for the next number that the line carries.
const MEMORY: [u8; 82] =
    *b": it loads at # and has # bytes, which do not fit into BASIC memory, 2049 to 40959";

const TOO_HIGH: [u8; 35] = *b": line #: its number is above 63999";

const NOT_ASCENDING: [u8; 48] = *b": line #: its number is not above the one before";

const ZERO: [u8; 91] =
    *b": line #: it holds a zero at address #: the machine ends it there, and the two readers part";

const LENGTH: [u8; 42] = *b": line #: it has # bytes, and not 1 to 250";

const TARGET_TOO_HIGH: [u8; 47] = *b": line #: it jumps to a line number above 65535";

const NO_TARGET: [u8; 48] = *b": line #: it jumps to line #, which is not there";

const LINK: [u8; 57] = *b": line #: the machine changes its link to # after loading";

const LINKS_LEAVE: [u8; 78] =
    *b": the machine runs past the program's end when it sets the links after loading";

const LINKS_ENDLESS: [u8; 56] = *b": the machine never ends setting the links after loading";

const FIT_LINE: [u8; 96] =
    *b": fit for the master: it loads at # and has # line, the same by both readers and for the machine";

const FIT_LINES: [u8; 97] =
    *b": fit for the master: it loads at # and has # lines, the same by both readers and for the machine";

const UNFIT_LINE: [u8; 54] = *b": not fit for the master; it loads at # and has # line";

const UNFIT_LINES: [u8; 55] = *b": not fit for the master; it loads at # and has # lines";

const FIT_FILE: [u8; 28] = *b": fit for the master: # file";

const FIT_FILES: [u8; 29] = *b": fit for the master: # files";

const UNFIT_FILE: [u8; 32] = *b": not fit for the master; # file";

const UNFIT_FILES: [u8; 33] = *b": not fit for the master; # files";

const UNFIT: [u8; 24] = *b": not fit for the master";

fn lend_target(name: &[u8], number: usize, target: usize, out: &mut [u8]) -> Result<usize, Refusal>
    requires { length name.now ≤ 4352 }
    ensures { left result out.new ≡ into_buffer (done (target_sentence name.now number target)) out.old }
{
    if target > 65535 {
        lend_row(name, &TARGET_TOO_HIGH, number, target, 0, out)
    } else {
        lend_row(name, &NO_TARGET, number, target, 0, out)
    }
}

// A row with a number of at most 65535, and another.
fn lend_about(
    name: &[u8],
    row: &[u8],
    number: u16,
    value: usize,
    out: &mut [u8],
) -> Result<usize, Refusal>
    requires { (length name.now ≤ 4352) × (length row.now ≤ 128) }
    ensures { left result out.new ≡ into_buffer (done (row_text name.now row.now number value 0)) out.old }
{
    lend_row(name, row, usize::from(number), value, 0, out)
}

pub fn lend_fault(name: &[u8], fault: Fault, out: &mut [u8]) -> Result<usize, Refusal>
    requires { length name.now ≤ 4352 }
    ensures { left result out.new ≡ into_buffer (done (fault_sentence name.now fault)) out.old }
{
    match fault {
        Fault::OutsideMemory { load, length } => lend_about(name, &MEMORY, load, length, out),
        Fault::NumberTooHigh { number } => lend_about(name, &TOO_HIGH, number, 0, out),
        Fault::NotAscending { number } => lend_about(name, &NOT_ASCENDING, number, 0, out),
        Fault::ZeroInBody { number, address } => lend_about(name, &ZERO, number, address, out),
        Fault::BodyLength { number, length } => lend_about(name, &LENGTH, number, length, out),
        Fault::NoTarget { number, target } => lend_target(name, number as usize, target, out),
        Fault::LinkChanges { number, link } => lend_about(name, &LINK, number, link as usize, out),
        Fault::LinksLeave => lend_about(name, &LINKS_LEAVE, 0, 0, out),
        Fault::LinksEndless => lend_about(name, &LINKS_ENDLESS, 0, 0, out),
    }
}

// The last line of a program: its load address, and how many lines it has.
pub fn lend_program(
    name: &[u8],
    load: usize,
    lines: usize,
    fit: bool,
    out: &mut [u8],
) -> Result<usize, Refusal>
    requires { length name.now ≤ 4352 }
    ensures { left result out.new ≡ into_buffer (done (program_sentence name.now load lines fit)) out.old }
{
    match (fit, lines) {
        (true, 1) => lend_row(name, &FIT_LINE, load, lines, 0, out),
        (true, _) => lend_row(name, &FIT_LINES, load, lines, 0, out),
        (false, 1) => lend_row(name, &UNFIT_LINE, load, lines, 0, out),
        (false, _) => lend_row(name, &UNFIT_LINES, load, lines, 0, out),
    }
}

// The last line of a disk: how many files it has.
pub fn lend_disk(name: &[u8], files: usize, fit: bool, out: &mut [u8]) -> Result<usize, Refusal>
    requires { length name.now ≤ 4352 }
    ensures { left result out.new ≡ into_buffer (done (disk_sentence name.now files fit)) out.old }
{
    match (fit, files) {
        (true, 1) => lend_row(name, &FIT_FILE, files, 0, 0, out),
        (true, _) => lend_row(name, &FIT_FILES, files, 0, 0, out),
        (false, 1) => lend_row(name, &UNFIT_FILE, files, 0, 0, out),
        (false, _) => lend_row(name, &UNFIT_FILES, files, 0, 0, out),
    }
}

// The last line of what no reader, or no disk, could be made of.
pub fn lend_refused(name: &[u8], out: &mut [u8]) -> Result<usize, Refusal>
    requires { length name.now ≤ 4352 }
    ensures { left result out.new ≡ into_buffer (done (refused_sentence name.now)) out.old }
{
    lend_row(name, &UNFIT, 0, 0, 0, out)
}
