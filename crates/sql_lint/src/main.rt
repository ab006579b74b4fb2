//! A linter to copy: rules on the trees of SQL. It prints the errors of each file and what the rules find, as
//! `FILE:LINE:COLUMN: message`, with the line and a mark under it.
#![tactic(auto)]

mod alter_table;
mod column_types;
mod lint;
mod nodes;
mod rules;
#[cfg(test)]
mod tests;

use crate::lint::Linter;
use sql_syntax::{SqlError, print_files, status};
use sql_words::vocabulary;
use std::process::ExitCode;
use std::{env, io};

/// The status at an error.
const FAILED: u8 = 3;

fn main(rt: HostRuntime) -> ExitCode {
    match run(&rt) {
        Ok(status) => ExitCode::from(status),
        Err(error) => {
            let _ = eprintln!(&rt; "sql_lint: {error}");
            ExitCode::from(FAILED)
        }
    }
}

/// Prints what is found in each file that the arguments name. Returns the status to end with.
fn run(rt: &HostRuntime) -> Result<u8, SqlError> {
    let alloc = rt.alloc();
    let words = vocabulary(alloc)?;
    let names: Vec<String> = env::args(rt)?.skip(1).collect(alloc)?;
    let linter = Linter { words: &words };
    let is_clean = print_files(alloc, rt, &linter, &names, &mut io::writer(rt));
    if let Err(error) = &is_clean {
        let _ = eprintln!(rt; "sql_lint: {error}");
    }
    Ok(status(&is_clean))
}
