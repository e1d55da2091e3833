//! Estimates of what is left from a station, by their questions.
ghost use Rattle.std.specs.Prelude.{◌≡◌, List, length};
ghost use Rattle.std.specs.List.{slice_get};
ghost use Rattle.networks.specs.declared.estimates.Pair.{Pair as Two};
ghost use Rattle.networks.specs.Given.{GivenInRange};

use amounts::cost::Cost;

/// A station's estimates: of the way on to the trap, and of the way from the launcher.
#[derive(Clone, Copy, Debug, PartialEq, Eq)]
pub struct Pair<L> {
    pub forward: L,
    pub backward: L,
}

/// Every answer is the meaning's: a pair for each station.
pub trait Estimates<C: Cost> {
    ghost meaning: { Self → List (Two C.Label) };

    /// For how many stations there is a pair. Every estimate is in range.
    fn count(&self) -> usize
        ensures count { result ≡ length (meaning self.now) }
        ensures range { GivenInRange C.Cost.estimate_range (meaning self.now) };

    /// The station's pair, absent beyond the count.
    fn pair(&self, station: usize) -> Option<Pair<C::Label>>
        ensures { result ≡ slice_get (meaning self.now) station };
}
