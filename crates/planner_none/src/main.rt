//! Plans the route through the page on standard input; its stored run is a network with no route.
#![tactic(auto)]

use planning::run::run;

fn main(rt: HostRuntime) -> anyhow::Result<()> {
    run(&rt)
}
