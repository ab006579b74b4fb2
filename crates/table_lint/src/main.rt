//! A program to copy: rules of CREATE TABLE, and a linter on their trees.
//!
//! It reads statements from the standard input, draws their tree with its errors, and names each table that has no
//! primary key.
#![tactic(auto)]

mod error;
mod lint;
mod tables;
#[cfg(test)]
mod tests;

use crate::error::LintError;
use crate::lint::report;
use std::io::{self, Write};
use std::process::ExitCode;

fn main(rt: HostRuntime) -> ExitCode {
    match run(&rt) {
        Ok(()) => ExitCode::SUCCESS,
        Err(error) => {
            let _ = eprintln!(&rt; "table_lint: {error}");
            ExitCode::FAILURE
        }
    }
}

/// Prints the tree of the standard input, and what the linter tells of it.
fn run(rt: &HostRuntime) -> Result<(), LintError> {
    let alloc = rt.alloc();
    let text = io::read_to_string(alloc, rt.reader())?;
    let told = report(alloc, text.as_str())?;
    io::writer(rt).write_all(told.as_str().as_bytes())?;
    Ok(())
}
