//! Shows a page to a person; its stored run is a page with an answer.
#![tactic(auto)]

use showing::run::run;

fn main(rt: HostRuntime) -> anyhow::Result<()> {
    run(&rt)
}
