//! Works out a twin line from its drawing and prints its sections.
#![tactic(auto)]

mod asked;
mod report;

use crate::asked::Asked;
use crate::report::answer;
use std::{env, fmt};

/// The words on the command line as numbers; absent where one is no number.
fn numbers(rt: &HostRuntime) -> anyhow::Result<Option<Vec<u64>>> {
    let mut numbers = Vec::new(rt.alloc());
    for word in env::args(rt)?.skip(1) {
        let Ok(number) = word.as_str().parse::<u64>() else {
            return Ok(None);
        };
        numbers.push(number)?;
    }
    Ok(Some(numbers))
}

fn run(rt: &HostRuntime) -> anyhow::Result<()> {
    let asked = numbers(rt)?.and_then(|numbers| Asked::by(numbers.as_slice()));
    // Where the text finds no memory, the message is that of a text that was not made.
    let text = answer(rt.alloc(), asked).map_err(|_| fmt::Error)?;
    rt.print(text)?;
    Ok(())
}

fn main(rt: HostRuntime) -> anyhow::Result<()> {
    run(&rt)
}
