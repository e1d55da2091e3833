//! Estimates that are consistent with a plan.
use crate::draws::Draws;
use crate::plan::{Amount, Plan};
use networks::estimates::Pair;
use std::alloc::{AllocError, Global};

/// How estimates are made from the least costs of a plan.
#[derive(Clone, Copy, Debug, PartialEq, Eq)]
pub enum Estimating {
    Blank,
    Exact,
    ForwardAlone,
    BackwardAlone,
    Capped,
}

impl Estimating {
    pub fn drawn(draws: &mut Draws) -> Estimating {
        match draws.below(5) {
            0 => Estimating::Blank,
            1 => Estimating::Exact,
            2 => Estimating::ForwardAlone,
            3 => Estimating::BackwardAlone,
            _ => Estimating::Capped,
        }
    }

    /// The most that is estimated forward, and backward, where the costs go up to these.
    fn caps(self, forward: Amount, backward: Amount) -> (Amount, Amount) {
        match self {
            Estimating::Blank => (Amount::ZERO, Amount::ZERO),
            Estimating::Exact => (forward, backward),
            Estimating::ForwardAlone => (forward, Amount::ZERO),
            Estimating::BackwardAlone => (Amount::ZERO, backward),
            Estimating::Capped => (forward.half(), backward.half()),
        }
    }
}

/// The largest of the costs.
fn most(least: &[Option<Amount>]) -> Amount {
    let mut most = Amount::ZERO;
    for amount in least.iter().flatten() {
        most = most.max(*amount);
    }
    most
}

/// A cost, but no more than the cap; the cap where there is no way.
// A cap on the costs keeps them consistent, since it shortens every difference and turns none round.
fn capped(least: Option<Amount>, cap: Amount) -> Amount {
    least.map_or(cap, |amount| amount.min(cap))
}

/// Estimates for each station of a plan.
pub fn estimates(
    heap: Global,
    plan: &Plan,
    estimating: Estimating,
) -> Result<Vec<Pair<Amount>>, AllocError> {
    let on = plan.turned(heap)?.least(heap)?;
    let back = plan.least(heap)?;
    let (forward, backward) = estimating.caps(most(&on), most(&back));
    let mut pairs = Vec::new(heap);
    for (on, back) in on.iter().zip(&back) {
        pairs.push(Pair {
            forward: capped(*on, forward),
            backward: capped(*back, backward),
        })?;
    }
    Ok(pairs)
}
