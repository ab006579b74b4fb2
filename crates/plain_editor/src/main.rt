//! A second body to compare the engine with: a list of items, which each call edits where it stands.
//!
//! It makes texts with calls at random, runs each by the engine and by the editor (`draft`, `editor`, `looks`,
//! `trivia`), and compares what they tell. It prints the first script of which they tell otherwise, with status 1,
//! or else what the scripts had. Two arguments say how many scripts there are, and the seed; without them it is
//! 10000, from the seed 1.
#![tactic(auto)]

mod by_rules;
mod comparison;
mod counts;
mod draft;
mod editor;
mod generator;
mod looks;
mod nested;
mod pieces;
mod source;
mod trees;
mod trivia;
mod words;

use crate::by_rules::Judged;
use crate::comparison::compare;
use crate::counts::Counts;
use crate::generator::Random;
use std::process::ExitCode;
use std::{env, io};

fn main(rt: HostRuntime) -> io::Result<ExitCode> {
    let mut numbers = [10000u64, 1];
    for (number, word) in numbers.iter_mut().zip(env::args(&rt)?.skip(1)) {
        let Ok(given) = word.parse::<u64>() else {
            return Ok(ExitCode::FAILURE);
        };
        *number = given;
    }
    let [scripts, seed] = numbers;
    run(&rt, scripts, seed)
}

/// Runs so many scripts from a seed.
fn run(rt: &HostRuntime, scripts: u64, seed: u64) -> io::Result<ExitCode> {
    let mut random = Random::new(seed);
    let mut counts = Counts::default();
    for number in 0..scripts {
        if let Some(difference) = compare(rt.alloc(), &mut random, &mut counts)? {
            print!(rt; "script {number}\n{}", difference.as_str())?;
            return Ok(ExitCode::FAILURE);
        }
    }
    println!(rt; "{scripts} scripts: {counts:?}")?;
    judge(rt, &mut random, scripts)
}

/// Judges so many sentences of rules.
fn judge(rt: &HostRuntime, random: &mut Random, sentences: u64) -> io::Result<ExitCode> {
    let mut judged = Judged::default();
    if let Some(difference) = by_rules::compare(rt.alloc(), random, sentences, &mut judged)? {
        print!(rt; "sentence {}\n{}", judged.sentences, difference.as_str())?;
        return Ok(ExitCode::FAILURE);
    }
    println!(rt; "{judged:?}")?;
    Ok(ExitCode::SUCCESS)
}
