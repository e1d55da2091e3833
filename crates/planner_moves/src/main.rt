//! Plans the route through the page on standard input; its stored run is in moves and samples.
//! By hand: 0-1-4 costs 1 move and 9 samples, 0-2-1-4 costs 3 and 8, and 0-2-3-4 costs 2 and 9. So it is the
//! first, though the second has fewer samples. The stations taken are 0, 4 and 1.
#![tactic(auto)]

use planning::run::run;

fn main(rt: HostRuntime) -> anyhow::Result<()> {
    run(&rt)
}
