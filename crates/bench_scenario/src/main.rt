//! A benchmark: reads the scenario on standard input. `bench/scenario.sh` times it on scenarios of a megabyte.
//!
//! Argument: how many times. Prints how many steps there are, or the fault.
#![tactic(auto)]

use scenario::{Played, read};
use std::alloc::Global;
use std::env;
use std::io::Read;

// What a text is, in words.
fn answer(alloc: Global, text: &[u8], times: u32) -> anyhow::Result<String> {
    let mut answer = String::new(alloc);
    for _ in 0..times {
        answer = match read(alloc, Played::InTurn, text) {
            Ok(scenario) => {
                let steps = scenario.steps.len();
                format!(in alloc; "steps {steps}")?
            }
            Err(fault) => format!(in alloc; "fault {fault:?}")?,
        };
    }
    Ok(answer)
}

fn main(rt: HostRuntime) -> anyhow::Result<()> {
    let alloc = rt.alloc();
    let words: Vec<String> = env::args(&rt)?.collect(alloc)?;
    let times = match words.get(1) {
        Some(word) => word.as_str().parse::<u32>().unwrap_or(1),
        None => 1,
    };
    let mut text = Vec::new(alloc);
    rt.stdin().read_to_end(&mut text)?;
    let answer = answer(alloc, text.as_slice(), times)?;
    println!(rt; "{answer}")?;
    Ok(())
}
