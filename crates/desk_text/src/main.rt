// What an editor asks of texts before they are crunched. ./moldthatch gives it a letter, c to check, q to check and say nothing, d to name the
// dialect, and then the names of files. What is found goes to standard output. No contract can say what is read or written.
#![tactic(auto)]

mod checks;
mod sayings;
mod sentence;
mod steps;
mod strange;

use desk::input;
use desk_calls::words;
use desk_status::Status;
use std::io::Result;

// What is to be done with a text.
#[derive(Clone, Copy)]
enum Task {
    Check { is_quiet: bool },
    NameDialect,
}

// The task that the first argument says.
fn asked(rt: &HostRuntime) -> Task {
    let mut word = io::buffer();
    match words::word(rt, 1, &mut word) {
        b"d" => Task::NameDialect,
        letter => Task::Check {
            is_quiet: letter == b"q".as_slice(),
        },
    }
}

fn done_with(rt: &HostRuntime, task: Task, name: &[u8], text: &[u8]) -> Status {
    match task {
        Task::Check { is_quiet } => checks::check_text(rt, name, text, is_quiet),
        Task::NameDialect => checks::tell_dialect(rt, name, text),
    }
}

// Takes what was read: a text, or as much of it as the buffer holds, which is refused as too long.
fn take_input(
    rt: &HostRuntime,
    task: Task,
    name: &[u8],
    input: Result<Option<usize>>,
    text: &[u8],
) -> Status {
    match input {
        Ok(Some(count)) => done_with(rt, task, name, sayings::cut(text, 0, count)),
        Ok(None) => done_with(rt, task, name, text),
        Err(_) => Status::Failed,
    }
}

// Takes the text in a file, or on standard input for -.
fn take_named(rt: &HostRuntime, task: Task, name: &[u8], text: &mut [u8]) -> Status {
    if name == b"-".as_slice() {
        let input = input::read_standard(rt, text);
        return take_input(rt, task, b"standard input", input, text);
    }
    let input = input::read_file(rt, name, text);
    take_input(rt, task, name, input, text)
}

// Takes the files that the arguments from the second on name. What cannot be read is told, and the others are taken all the same.
fn take_files(rt: &HostRuntime, text: &mut [u8]) -> Status {
    let task = asked(rt);
    let mut status = Status::Done;
    for i in 2..words::count(rt) {
        let mut name = io::buffer();
        let came = take_named(rt, task, words::word(rt, i, &mut name), text);
        status = desk_status::worse(status, came);
    }
    status
}

fn main(rt: HostRuntime) {
    // One byte more than a text may have: what fills it is refused as too long.
    let mut text = [0u8; 1_048_577];
    desk_status::tell(take_files(&rt, &mut text));
}
