//! Plans the route through the page on standard input; its stored run is a network of five stations.
#![tactic(auto)]

use planning::run::run;

fn main(rt: HostRuntime) -> anyhow::Result<()> {
    run(&rt)
}
