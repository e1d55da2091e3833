//! Plans the route through the page on standard input; its stored run is refused, and files nothing.
#![tactic(auto)]

use planning::run::run;

fn main(rt: HostRuntime) -> anyhow::Result<()> {
    run(&rt)
}
