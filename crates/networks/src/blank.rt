//! Estimates that say nothing: zero both ways.
ghost use Rattle.std.specs.Prelude.{◌≡◌, ◌≤◌, length};
ghost use Rattle.std.specs.Result.{result_err};
ghost use Rattle.faults.specs.Reasons.{FirstReason};
ghost use Rattle.faults.specs.declared.Layer.TheVariants as layer;
ghost use Rattle.networks.specs.Blanks.{blank_answer, blank_reasons, blank_pairs};
ghost use Rattle.networks.specs.Given.{GivenInRange};
ghost use Rattle.networks.specs.Ranges.{on_ok};

use crate::estimates::{Estimates, Pair};
use amounts::cost::Cost;
use faults::{Fault, in_range};

/// The most stations of a network.
pub const MOST_STATIONS: usize = 4096;

/// Zero for each of so many stations.
// Kept: no model. A value at hand shows its range with no call, and a `Copy` struct that holds it is copied.
#[derive(Clone, Copy, Debug, PartialEq, Eq)]
pub struct Blank {
    count: usize,
    ghost within: { (1 ≤ count) × (count ≤ 4096) },
}

impl Blank {
    /// Blank estimates for 1 to 4,096 stations.
    pub fn new(count: usize) -> Result<Blank, Fault>
        ensures exact { on_ok (λ b. b.count) result ≡ blank_answer count }
        ensures reasons { FirstReason layer.Network (blank_reasons count) (result_err result) }
    {
        in_range(0, (1..=MOST_STATIONS).contains(&count))?;
        Ok(Blank { count })
    }
}

impl<C: Cost> Estimates<C> for Blank {
    ghost meaning = { λ b. blank_pairs C.Cost.ops b.count };

    /// A count is always in its range.
    fn count(&self) -> usize
        ensures count { result ≡ length (blank_pairs C.Cost.ops self.now.count) }
        ensures range { GivenInRange C.Cost.estimate_range (blank_pairs C.Cost.ops self.now.count) }
        ensures within { (1 ≤ self.now.count) × (self.now.count ≤ 4096) }
    {
        self.count
    }

    fn pair(&self, station: usize) -> Option<Pair<C::Label>> {
        (station < self.count).then_some(Pair {
            forward: C::ZERO,
            backward: C::ZERO,
        })
    }
}
