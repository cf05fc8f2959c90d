//! A benchmark: the commands' engines over inputs that are made from a seed. `bench/run` times it.
//!
//! Arguments: a job, a seed, and a size in percent, 100 where it is left out. Without arguments every job runs at a small
//! size, with the seed 1. The jobs are `usual`, `flood`, `rollout`, `threads`, `services`, `shared` and `questions`. Prints a
//! line for each call: its name and a digest of all that it wrote, and its fault, if it had one. The lines are the same at each
//! run. Nothing is written to files, and captures are made while they are read.
#![tactic(auto)]

mod answers;
mod captures;
mod devices;
mod generator;
mod jobs;
mod packets;
mod questions;
mod scenarios;

use crate::jobs::{Order, flood, rollout, services, shared, threads, usual};
use crate::questions::questions;
use anyhow::bail;
use std::alloc::Global;
use std::env;
use std::sync::Wait;
use std::thread::Threads;

fn perform<R: Print + Threads + Wait + Sync>(
    rt: &R,
    alloc: Global,
    job: &str,
    order: Order,
) -> anyhow::Result<()> {
    match job {
        "usual" => usual(rt, alloc, order),
        "flood" => flood(rt, alloc, order),
        "rollout" => rollout(rt, alloc, order),
        "threads" => threads(rt, alloc, order),
        "services" => services(rt, alloc, order),
        "shared" => shared(rt, alloc, order),
        "questions" => questions(rt, alloc, order),
        _ => bail!("there is no job of this name"),
    }
}

fn perform_all<R: Print + Threads + Wait + Sync>(
    rt: &R,
    alloc: Global,
    order: Order,
) -> anyhow::Result<()> {
    for job in [
        "usual",
        "flood",
        "rollout",
        "threads",
        "services",
        "shared",
        "questions",
    ] {
        perform(rt, alloc, job, order)?;
    }
    Ok(())
}

fn number_at(words: &[String], place: usize, default: u32) -> u32 {
    match words.get(place) {
        Some(word) => word.as_str().parse::<u32>().unwrap_or(default),
        None => default,
    }
}

fn main(rt: HostRuntime) -> anyhow::Result<()> {
    let alloc = rt.alloc();
    let words: Vec<String> = env::args(&rt)?.collect(alloc)?;
    let seed = number_at(words.as_slice(), 2, 1);
    match words.get(1) {
        Some(job) => {
            let size = number_at(words.as_slice(), 3, 100);
            perform(&rt, alloc, job.as_str(), Order { seed, size })
        }
        None => perform_all(&rt, alloc, Order { seed, size: 1 }),
    }
}
