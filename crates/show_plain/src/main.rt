//! The program `show`; its stored run is the same page without an answer.
#![tactic(auto)]

use showing::run::run;

fn main(rt: HostRuntime) -> anyhow::Result<()> {
    run(&rt)
}
