//! Prints the steps of a document, which it reads as JSON, as lines.
#![tactic(auto)]

use squawk_answer::{Watch, program};
use std::io;
use std::process::ExitCode;

fn main(rt: HostRuntime) -> ExitCode {
    program(
        rt.alloc(),
        &mut Watch::new(),
        &mut rt.reader(),
        &mut io::writer(&rt),
        &mut Watch::new(),
        &mut rt.stderr(),
    )
}
