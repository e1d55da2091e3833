//! Plans the route through the page on standard input; its stored run is a valid page of 16,403 bytes.
//! Of those the first 16,384 are read, which end inside the last estimate.
#![tactic(auto)]

use planning::run::run;

fn main(rt: HostRuntime) -> anyhow::Result<()> {
    run(&rt)
}
