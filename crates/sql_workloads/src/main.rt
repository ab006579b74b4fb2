//! From SQL texts at random to steps and trees: `sql_workloads JOB SEED COUNT [ROUNDS]`.
//!
//! `steps` and `trees` take COUNT files and a dump, and print a digest of all steps, which is the same. The other jobs
//! take one text of COUNT raw tokens. ROUNDS times they take it to its raw tokens (`tokens`), their table (`table`), the
//! input (`input`), the output (`parse`), the steps (`sent`) or the tree (`built`); or they build its tree once, and walk
//! over its tokens ROUNDS times (`walked`), or find the tokens at ROUNDS million offsets (`found`).
#![tactic(auto)]

mod jobs;
mod texts;

use crate::jobs::{Make, Phase};
use crate::texts::Texts;
use sql_words::vocabulary;
use std::alloc::{AllocError, Global};
use std::process::ExitCode;
use std::{env, io};
use workload_texts::Digest;

/// A job from a seed, over so many files, or over a text with so many raw tokens.
#[derive(Clone, Copy)]
struct Order<'w> {
    job: &'w str,
    seed: u64,
    count: usize,
    rounds: usize,
}

fn main(rt: HostRuntime) -> io::Result<ExitCode> {
    let mut words = env::args(&rt)?.skip(1);
    let (Some(job), Some(seed), Some(count)) = (words.next(), words.next(), words.next()) else {
        return Ok(ExitCode::FAILURE);
    };
    let (Ok(seed), Ok(count)) = (seed.parse::<u64>(), count.parse::<usize>()) else {
        return Ok(ExitCode::FAILURE);
    };
    let rounds = match words.next() {
        Some(word) => word.parse::<usize>().unwrap_or(0),
        None => 1,
    };
    let order = Order {
        job: job.as_str(),
        seed,
        count,
        rounds,
    };
    let mut digest = Digest::new();
    if !do_job(rt.alloc(), order, &mut digest)? {
        return Ok(ExitCode::FAILURE);
    }
    let Digest { number, steps } = digest;
    println!(rt; "{number:016x} {steps}")?;
    Ok(ExitCode::SUCCESS)
}

/// Does a job. Whether there is one of this name.
fn do_job(alloc: Global, order: Order<'_>, digest: &mut Digest) -> Result<bool, AllocError> {
    let words = vocabulary(alloc)?;
    let mut texts = Texts::new(alloc, order.seed)?;
    let Order { count, rounds, .. } = order;
    match order.job {
        "steps" => jobs::files(alloc, &words, &mut texts, count, Make::Steps, digest)?,
        "trees" => jobs::files(alloc, &words, &mut texts, count, Make::Tree, digest)?,
        "walked" => {
            let text = texts.of_size(alloc, count)?;
            jobs::walked(alloc, &words, text.as_str(), rounds, digest)?;
        }
        "found" => {
            let text = texts.of_size(alloc, count)?;
            jobs::found(alloc, &words, &mut texts, text.as_str(), rounds, digest)?;
        }
        job => match phase(job) {
            Some(phase) => {
                let text = texts.of_size(alloc, count)?;
                jobs::phases(alloc, &words, text.as_str(), phase, rounds, digest)?;
            }
            None => return Ok(false),
        },
    }
    Ok(true)
}

/// The phase that a job ends with.
fn phase(job: &str) -> Option<Phase> {
    match job {
        "tokens" => Some(Phase::Tokens),
        "table" => Some(Phase::Table),
        "input" => Some(Phase::Input),
        "parse" => Some(Phase::Parse),
        "sent" => Some(Phase::Steps),
        "built" => Some(Phase::Tree),
        _ => None,
    }
}
