//! The jobs that users of the engine wait for, over inputs at random: `workloads JOB SEED COUNT`, with a
//! document on standard input whose words and vocabulary the jobs take.
//!
//! It prints a digest of all results, which is the same for the same words.
#![tactic(auto)]

mod calls;
mod documents;
mod jobs;
mod moved;
mod questions;
mod setting;
mod statements;

use crate::setting::Setting;
use squawk_document::{Document, value};
use std::alloc::{AllocError, Global};
use std::process::ExitCode;
use std::{env, io};
use workload_texts::Digest;

/// A job from a seed, over so many inputs; of dumps it is how many raw tokens they have.
#[derive(Clone, Copy)]
struct Order<'w> {
    job: &'w str,
    seed: u64,
    count: usize,
}

fn main(rt: HostRuntime) -> io::Result<ExitCode> {
    let mut words = env::args(&rt)?.skip(1);
    let (Some(job), Some(seed), Some(count)) = (words.next(), words.next(), words.next()) else {
        return Ok(ExitCode::FAILURE);
    };
    let (Ok(seed), Ok(count)) = (seed.parse::<u64>(), count.parse::<usize>()) else {
        return Ok(ExitCode::FAILURE);
    };
    let text = io::read_to_string(rt.alloc(), rt.reader())?;
    let order = Order {
        job: job.as_str(),
        seed,
        count,
    };
    match answer(rt.alloc(), order, text.as_str())? {
        Some(digest) => {
            let Digest { number, steps } = digest;
            println!(rt; "{} {number:016x} {steps}", order.job)?;
            Ok(ExitCode::SUCCESS)
        }
        None => Ok(ExitCode::FAILURE),
    }
}

/// The digest of a job, if there is one of this name, and the text is a document.
fn answer(alloc: Global, order: Order<'_>, text: &str) -> Result<Option<Digest>, AllocError> {
    let Ok(value) = value::parse(alloc, text.as_bytes()) else {
        return Ok(None);
    };
    let Ok(document) = Document::from_value(alloc, &value) else {
        return Ok(None);
    };
    let words = words_of(text);
    let setting = Setting { document, words };
    let mut digest = Digest::new();
    if do_job(alloc, order, &setting, &mut digest)? {
        Ok(Some(digest))
    } else {
        Ok(None)
    }
}

/// The part of a document's text from its words on to its calls, which come last.
fn words_of(text: &str) -> &str {
    let start = text.find("\"words\"").unwrap_or(0);
    let end = text.find("\"calls\"").unwrap_or(0);
    text.get(start..end).unwrap_or("")
}

/// Does a job. Whether there is one of this name.
fn do_job(
    alloc: Global,
    order: Order<'_>,
    setting: &Setting<'_>,
    digest: &mut Digest,
) -> Result<bool, AllocError> {
    let maker = setting.maker(order.seed);
    let count = order.count;
    match order.job {
        "files" => jobs::files(alloc, setting, maker, count, digest)?,
        "dumps" => jobs::dumps(alloc, setting, maker, count, digest)?,
        "expressions" => jobs::expressions(alloc, setting, maker, count, digest)?,
        "edits" => jobs::edits(alloc, setting, maker, count, digest)?,
        "moved" => moved::moved(alloc, setting, maker, count, digest)?,
        "documents" => documents::documents(alloc, setting, maker, count, digest)?,
        "calls" => calls::calls(alloc, setting, count, digest)?,
        "all" => do_all(alloc, setting, order, digest)?,
        _ => return Ok(false),
    }
    Ok(true)
}

/// Does all jobs that are timed.
fn do_all(
    alloc: Global,
    setting: &Setting<'_>,
    order: Order<'_>,
    digest: &mut Digest,
) -> Result<(), AllocError> {
    let maker = setting.maker(order.seed);
    let count = order.count;
    jobs::files(alloc, setting, maker, count, digest)?;
    jobs::dumps(alloc, setting, maker, count, digest)?;
    jobs::expressions(alloc, setting, maker, count, digest)?;
    jobs::edits(alloc, setting, maker, count, digest)?;
    moved::moved(alloc, setting, maker, count, digest)?;
    documents::documents(alloc, setting, maker, count, digest)
}
