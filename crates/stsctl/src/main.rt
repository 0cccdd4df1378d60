//! `stsctl`: serves requests to a plain in-memory store, a line of standard output for each line of standard input,
//! replays callers that race for one, plans what a StatefulSet needs, and lets its controllers race.
#![tactic(auto)]

use commands::{TrackedAlloc, command};
use plain::{ReadSource, WriteSink};
use std::process::ExitCode;
use std::{env, io};

/// The exit status if the arguments are no command of the program.
const BAD_WORDS: u8 = 2;

/// The arguments of the command line, the program's name first.
fn command_words(rt: &HostRuntime) -> io::Result<Vec<String>> {
    Ok(env::args(rt)?.collect(rt.alloc())?)
}

/// The exit status if the arguments cannot be read: memory ran out, or one of them is not UTF-8, which standard error
/// then says.
fn unread_words(rt: &HostRuntime, error: &io::Error) -> ExitCode {
    if error.kind() != io::ErrorKind::InvalidData {
        return ExitCode::FAILURE;
    }
    // The status already says that the arguments are bad, so nothing is lost if this fails.
    let _ = eprintln!(rt; "error: a word of the command line is not UTF-8");
    ExitCode::from(BAD_WORDS)
}

/// The whole program over the standard streams, none of which is buffered here.
fn main(rt: HostRuntime) -> ExitCode {
    let words = match command_words(&rt) {
        Ok(words) => words,
        Err(error) => return unread_words(&rt, &error),
    };
    let mut reader = ReadSource::new(rt.stdin());
    let mut writer = WriteSink::new(rt.stdout());
    let mut faults = WriteSink::new(rt.stderr());
    let mut heap = TrackedAlloc::new(rt.alloc());
    let status = command(
        &rt,
        &mut heap,
        words.as_slice(),
        &mut reader,
        &mut writer,
        &mut faults,
    );
    ExitCode::from(status)
}
