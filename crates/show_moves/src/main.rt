//! Shows a page to a person; its stored run is a page of moves and samples, with a shut section and an answer.
#![tactic(auto)]

use showing::run::run;

fn main(rt: HostRuntime) -> anyhow::Result<()> {
    run(&rt)
}
