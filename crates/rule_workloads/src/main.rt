//! SELECT statements at random, parsed by a grammar in code and by rules: `rule_workloads JOB SEED COUNT [ROUNDS]`.
//!
//! `code`, `rules` and `ready` take one text of COUNT statements to the parse's output ROUNDS times, and print how many
//! events were recorded, which is the same: by code, by rules that are read first, and by rules that stand ready.
//! `brackets` and `unexpected` parse COUNT opening and COUNT closing parentheses by rules. `making` reads the rules COUNT
//! times and makes tables of them; `many` and `wide` make COUNT rules and a rule of COUNT alternatives, ROUNDS times.
#![tactic(auto)]

mod by_code;
mod by_rules;
mod hostile;
mod texts;

use crate::by_rules::{making, ready_rules, rules};
use crate::hostile::{many, repeated, wide};
use crate::texts::text;
use select_grammar::kinds::KEYWORDS;
use squawk_keywords::Keywords;
use std::alloc::{AllocError, Global};
use std::process::ExitCode;
use std::{env, io};

/// A job from a seed, over so many statements, so many times.
#[derive(Clone, Copy)]
struct Order<'w> {
    job: &'w str,
    seed: u64,
    count: usize,
    rounds: usize,
}

fn main(rt: HostRuntime) -> io::Result<ExitCode> {
    let mut words = env::args(&rt)?.skip(1);
    let (Some(job), Some(seed), Some(count)) = (words.next(), words.next(), words.next()) else {
        return Ok(ExitCode::FAILURE);
    };
    let (Ok(seed), Ok(count)) = (seed.parse::<u64>(), count.parse::<usize>()) else {
        return Ok(ExitCode::FAILURE);
    };
    let rounds = match words.next() {
        Some(word) => word.parse::<usize>().unwrap_or(0),
        None => 1,
    };
    let order = Order {
        job: job.as_str(),
        seed,
        count,
        rounds,
    };
    match do_job(rt.alloc(), order)? {
        Some(number) => {
            println!(rt; "{number}")?;
            Ok(ExitCode::SUCCESS)
        }
        None => Ok(ExitCode::FAILURE),
    }
}

/// Does a job, if there is one of this name. A refusal counts as want of memory.
fn do_job(alloc: Global, order: Order<'_>) -> Result<Option<u64>, AllocError> {
    let Ok(words) = Keywords::ignoring_case(alloc, &KEYWORDS, &[]) else {
        return Err(AllocError);
    };
    let text = text(alloc, order.seed, order.count)?;
    match order.job {
        "code" => Ok(Some(by_code::events(alloc, &words, text.as_str(), order.rounds)?)),
        "rules" => Ok(Some(rules(alloc, &words, text.as_str(), order.rounds)?)),
        "ready" => Ok(Some(ready_rules(alloc, &words, text.as_str(), order.rounds)?)),
        "making" => Ok(Some(making(alloc, &words, select_rules::RULES, order.count)?)),
        "brackets" => Ok(Some(broken(alloc, &words, "(", order)?)),
        "unexpected" => Ok(Some(broken(alloc, &words, ") ", order)?)),
        "wide" => {
            let text = wide(alloc, order.count)?;
            Ok(Some(making(alloc, &words, text.as_str(), order.rounds)?))
        }
        "many" => {
            let text = many(alloc, order.count)?;
            Ok(Some(making(alloc, &words, text.as_str(), order.rounds)?))
        }
        _ => Ok(None),
    }
}

/// How many events are recorded where a sign that often stands after SELECT.
fn broken(
    alloc: Global,
    words: &Keywords<'_>,
    sign: &str,
    order: Order<'_>,
) -> Result<u64, AllocError> {
    let text = repeated(alloc, "select ", sign, order.count)?;
    rules(alloc, words, text.as_str(), order.rounds)
}
