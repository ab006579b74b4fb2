//! Prints the lossless tree of SQL, statement by statement, with its errors.
#![tactic(auto)]

mod inputs;
mod listing;
mod options;
mod printer;
mod progress;
mod report;
mod sql;
mod stop;
mod telling;
#[cfg(test)]
mod tests;
mod texts;
mod totals;
mod unread;

use crate::inputs::tell_files;
use crate::options::{FILE, asked_listing, command};
use crate::totals::{UNREAD, WRONG_ARGUMENTS};
use clap::error::{Error, ErrorKind as ArgumentsError};
use std::io::ErrorKind;
use std::process::ExitCode;
use std::{env, io};

fn main(rt: HostRuntime) -> ExitCode {
    match run(&rt) {
        Ok(status) => ExitCode::from(status),
        Err(error) if error.kind() == ErrorKind::BrokenPipe => ExitCode::SUCCESS,
        Err(error) => {
            let _ = eprintln!(&rt; "sql_tree: {error}");
            ExitCode::from(UNREAD)
        }
    }
}

/// Does what its arguments say, and tells the status to end with. It fails where it can't print or has no
/// memory for the arguments.
fn run(rt: &HostRuntime) -> io::Result<u8> {
    let words: Vec<String> = env::args(rt)?.collect(rt.alloc())?;
    run_words(rt, &words)
}

/// Does what these words say.
fn run_words(rt: &HostRuntime, words: &[String]) -> io::Result<u8> {
    match command(rt.alloc())?.try_get_matches_from(words) {
        Ok(matches) => tell_files(
            rt,
            asked_listing(&matches),
            matches.get_strs(FILE).unwrap_or(&[]),
        ),
        Err(error) => refuse(rt, &error),
    }
}

/// Prints why arguments are refused, or the help or the version that they ask for.
fn refuse(rt: &HostRuntime, error: &Error) -> io::Result<u8> {
    if error.kind() == ArgumentsError::OutOfMemory {
        return Err(io::Error::from(ErrorKind::OutOfMemory));
    }
    error.print(rt)?;
    Ok(if error.use_stderr() {
        WRONG_ARGUMENTS
    } else {
        0
    })
}
