//! The program `show`; its stored run is a page with one byte changed.
#![tactic(auto)]

use showing::run::run;

fn main(rt: HostRuntime) -> anyhow::Result<()> {
    run(&rt)
}
