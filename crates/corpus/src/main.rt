//! Runs cases that are data: each file that an argument names has some, and a case says what goes in and
//! what must come out (`sections` has the form, `given` and `wanted` the words, and those of documents are in
//! `documents` and `answers`).
//!
//! For each file a line says how many cases held, of which each document counts. What didn't hold is told
//! on standard error, and the status is then 1.
#![tactic(auto)]

mod answers;
mod came;
mod cuts;
mod documents;
mod given;
mod lexical;
mod limits;
mod looks;
mod parses;
mod repeats;
mod report;
mod sections;
mod sent;
mod tokens;
mod trouble;
mod wanted;

use crate::answers::judge_documents;
use crate::documents::has_documents;
use crate::report::Report;
use crate::sections::cases_of;
use crate::trouble::Trouble;
use crate::wanted::judge;
use std::alloc::Global;
use std::process::ExitCode;
use std::{env, fs, io};

fn main(rt: HostRuntime) -> ExitCode {
    match run(&rt) {
        Ok(true) => ExitCode::SUCCESS,
        Ok(false) => ExitCode::FAILURE,
        Err(error) => {
            let _ = eprintln!(rt; "{error}");
            ExitCode::FAILURE
        }
    }
}

/// Runs the files that the arguments name, and tells whether all cases of all of them held, and there
/// was one.
fn run(rt: &HostRuntime) -> io::Result<bool> {
    let mut is_run = false;
    let mut has_held = true;
    for path in env::args(rt)?.skip(1) {
        is_run = true;
        has_held &= run_file(rt, path.as_str())?;
    }
    Ok(is_run && has_held)
}

/// Runs the cases of a file, and tells whether all held.
fn run_file(rt: &HostRuntime, path: &str) -> io::Result<bool> {
    let text = match fs::read_to_string(rt, path) {
        Ok(text) => text,
        Err(error) => {
            let _ = eprintln!(rt; "{path}: {error}");
            return Ok(false);
        }
    };
    let mut report = Report::new(rt.alloc());
    let ran = run_cases(rt.alloc(), text.as_str(), &mut report);
    let _ = eprint!(rt; "{}", report.text.as_str());
    if let Err(trouble) = ran {
        let _ = eprintln!(rt; "{path}: {trouble}");
        return Ok(false);
    }
    println!(rt; "{path}: {} of {} held", report.held, report.cases)?;
    Ok(report.held == report.cases)
}

/// Runs the cases of a text.
fn run_cases(alloc: Global, text: &str, report: &mut Report) -> Result<(), Trouble> {
    let cases = cases_of(alloc, text)?;
    for case in &cases {
        if has_documents(case) {
            judge_documents(alloc, &cases, case, report)?;
        } else {
            judge(alloc, case, report)?;
        }
    }
    Ok(())
}
