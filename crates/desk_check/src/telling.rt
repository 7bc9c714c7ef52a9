// What was found, in sentences for a person: a line for each, behind the name of the file. A line is one write, so that lines of several
// processes do not mix.
ghost use Rattle.std.specs.Prelude.{◌≤◌, length};
ghost use Rattle.desk.specs.ResultHelpers.{Holds};

use base_refusals::Refusal;
use desk::{output, saying};
use desk_status::Status;
use image_faults::Fault;
use image_readers::Overview;

// No name is longer: the desk reads 4,096 bytes of one, and puts the name of a disk's file behind it.
fn short(name: &[u8]) -> &[u8]
    ensures { length result.now ≤ 4352 }
{
    &name[..name.len().min(4352)]
}

// Where what was found is told: under a name, or not at all.
#[derive(Clone, Copy)]
pub struct Teller<'a> {
    pub rt: &'a HostRuntime,
    pub name: &'a [u8],
    pub is_quiet: bool,
}

impl Teller<'_> {
    // Writes a line that was put together, or says why it was not.
    fn write_told(&self, outcome: Result<usize, Refusal>, line: &[u8]) -> bool
        requires { Holds outcome line.now }
    {
        match outcome {
            Ok(n) => saying::say(self.rt, &line[..n]),
            Err(refusal) => {
                output::tell(self.rt, self.name, refusal);
                false
            }
        }
    }

    fn write_fault(&self, fault: Fault) -> bool {
        let mut line = [0u8; 4608];
        let outcome = image_sentences::lend_fault(short(self.name), fault, &mut line);
        self.write_told(outcome, &line)
    }

    pub fn tell_fault(&self, fault: Fault) -> Status {
        desk_status::written(self.is_quiet || self.write_fault(fault), Status::Refused)
    }

    fn write_unread(&self) -> bool {
        let mut line = [0u8; 4608];
        let outcome = image_sentences::lend_refused(short(self.name), &mut line);
        self.write_told(outcome, &line)
    }

    fn write_refusal(&self, refusal: Refusal) -> bool {
        let mut line = [0u8; 4608];
        let code = base_refusals::refusal_code(refusal);
        let n = say_sentences::message(self.name, b"", code, &mut line);
        saying::say(self.rt, &line[..n]) && self.write_unread()
    }

    // What no reader, or no disk, could be made of.
    pub fn tell_refusal(&self, refusal: Refusal) -> Status {
        desk_status::written(
            self.is_quiet || self.write_refusal(refusal),
            Status::Refused,
        )
    }

    fn write_program(&self, overview: Overview, fit: bool) -> bool {
        let mut line = [0u8; 4608];
        let load = usize::from(overview.load);
        let outcome = image_sentences::lend_program(
            short(self.name),
            load,
            overview.lines,
            fit,
            &mut line,
        );
        self.write_told(outcome, &line)
    }

    // The last line of a program, where the lines before it could be told.
    pub fn tell_program(&self, overview: Overview, run: Status) -> Status {
        if self.is_quiet || run == Status::Failed {
            return run;
        }
        desk_status::written(self.write_program(overview, run == Status::Done), run)
    }

    fn write_disk(&self, files: usize, fit: bool) -> bool {
        let mut line = [0u8; 4608];
        let outcome = image_sentences::lend_disk(short(self.name), files, fit, &mut line);
        self.write_told(outcome, &line)
    }

    // The last line of a disk, likewise.
    pub fn tell_disk(&self, files: usize, run: Status) -> Status {
        if self.is_quiet || run == Status::Failed {
            return run;
        }
        desk_status::written(self.write_disk(files, run == Status::Done), run)
    }
}
