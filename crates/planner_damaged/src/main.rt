//! Plans the route through the page on standard input; its stored run is no page.
//! Section 3, at byte 46, begins with the byte of an estimate.
#![tactic(auto)]

use planning::run::run;

fn main(rt: HostRuntime) -> anyhow::Result<()> {
    run(&rt)
}
