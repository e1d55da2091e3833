//! The program: a page on standard input; on standard output its plan, or the page that is filed of it.
use crate::asked::Asked;
use crate::filed::filed;
use crate::plan::plan;
use anyhow::bail;
use showing::run::page_in;
use std::io::Write;
use std::{env, io};

/// The words on the command line.
fn words(rt: &HostRuntime) -> anyhow::Result<Vec<String>> {
    let mut words = Vec::new(rt.alloc());
    for word in env::args(rt)?.skip(1) {
        words.push(word)?;
    }
    Ok(words)
}

/// Prints the plan of the page on standard input, or writes the filed page; a refusal to file writes nothing there.
pub fn run(rt: &HostRuntime) -> anyhow::Result<()> {
    let Some(asked) = Asked::by(words(rt)?.as_slice()) else {
        bail!("usage: planner [file RUN]");
    };
    let page = page_in(rt)?;
    match asked {
        Asked::Plan => rt.print(plan(rt.alloc(), page.as_slice())?)?,
        Asked::File { run } => {
            let filed = filed(rt.alloc(), page.as_slice(), run)?;
            io::writer(rt).write_all(filed.as_slice())?;
        }
    }
    Ok(())
}
