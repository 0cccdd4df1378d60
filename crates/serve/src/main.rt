//! `serve`: a plain in-memory store of Kubernetes objects, a line of standard output for each line of standard input. It
//! is `stsctl serve` alone, and the smallest program over the libraries.
#![tactic(auto)]

use plain::{MAX_REVISIONS, ReadSource, WriteSink};
use std::process::ExitCode;

fn main(rt: HostRuntime) -> ExitCode {
    let mut reader = ReadSource::new(rt.stdin());
    let mut writer = WriteSink::new(rt.stdout());
    match plain::serve(rt.alloc(), &mut reader, &mut writer, MAX_REVISIONS) {
        Ok(_) => ExitCode::SUCCESS,
        // Reading or writing failed, or memory ran out.
        Err(_) => ExitCode::FAILURE,
    }
}
