// What a command comes to, and where that is told. A program cannot end with a status: it writes a digit to descriptor 3, last of all, and
// ./moldthatch ends with that number. Without a digit the program was ended before it was through.
#![tactic(auto)]

ghost use Rattle.std.specs.Prelude.{◌≡◌};
ghost use Rattle.desk_status.specs.Status.{is_done, number as status_number, worst, written as written_status};

// Where the status goes.
const STATUS_FILENO: i32 = 3;

// Each with the number that ./moldthatch ends with: of two the greater is the worse.
#[derive(Clone, Copy, PartialEq, Eq, PartialOrd, Ord)]
pub enum Status {
    Done = 0,
    // Something was refused, or is not fit.
    Refused = 1,
    // The words of the command ask for nothing that there is.
    Misused = 2,
    // Something could not be read or written.
    Failed = 3,
}

fn number(status: Status) -> u8
    ensures { result ≡ status_number status }
{
    status as u8
}

pub fn is_done(status: Status) -> bool
    ensures { result ≡ is_done status }
{
    status == Status::Done
}

// The worse of two, which is what both together come to.
pub fn worse(first: Status, second: Status) -> Status
    ensures { result ≡ worst first second }
{
    first.max(second)
}

// What a command comes to that was to write something first.
pub fn written(done: bool, status: Status) -> Status
    ensures { result ≡ written_status done status }
{
    if done { status } else { Status::Failed }
}

// Tells the status. Where that fails, it is missing, which ./moldthatch tells apart.
#[tactic(auto, using(crate::proofs::Laws::number_small))]
pub fn tell(status: Status) {
    io::write_all(STATUS_FILENO, &[b'0' + number(status)]);
}
