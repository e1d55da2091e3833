//! Chain: a route value over any list of steps that join.
ghost use Rattle.std.specs.Prelude.{◌≡◌, [], Ok, Err};
ghost use Rattle.filing.specs.Chains.{Joined, first_apart, chain_of, ChainStands};

use contents::answer::Step;
use faults::{Fault, Layer, Refusal};
use std::alloc::AllocError;

// Kept: clauses name its `steps`, since a type that is Copy and has a lifetime can have no model.

/// A lent list of steps, each of which starts where the one before it ended.
pub struct Route<'a, L> {
    steps: &'a [Step<L>],
    ghost joined: { Joined steps.now },
}

// Kept: by hand, since a derive is refused at a generic struct with ghost fields.
impl<L> Clone for Route<'_, L> {
    ghost is_clone = { λ v w. w ≡ v };

    ghost is_infallible = { λ _. Unit {0} };

    fn clone(&self) -> Result<Self, AllocError> {
        Ok(*self)
    }
}

impl<L> Copy for Route<'_, L> {}

impl<'a, L> Route<'a, L> {
    /// The route of no steps.
    pub fn empty() -> Route<'a, L>
        ensures { result.steps.now ≡ [] }
    {
        Route { steps: &[] }
    }

    /// Its steps, each of which starts where the one before it ended.
    pub fn steps(&self) -> &'a [Step<L>]
        ensures exact { result.now ≡ self.now.steps.now }
        ensures joined { Joined result.now }
    {
        self.steps
    }
}

/// The first step that does not start where the one before it ended.
fn first_apart<L>(steps: &[Step<L>]) -> Option<usize>
    ensures { result ≡ first_apart steps.now }
{
    for step in 1..steps.len() {
        if steps[step].from != steps[step - 1].to {
            return Some(step);
        }
    }
    None
}

/// Fills a route value that the caller holds. Turned down, it stands as it was.
pub fn chain<'a, L>(steps: &'a [Step<L>], route: &mut Route<'a, L>) -> Result<(), Fault>
    ensures answer { result ≡ chain_of steps.now }
    ensures filled { elim result [ Ok _ ↦ route.new.steps.now ≡ steps.now | Err _ ↦ route.new ≡ route.old ] }
    // Accepted exactly if each step starts where the one before it ended; else the first that does not is named.
    ensures stands { ChainStands steps.now result }
{
    if let Some(step) = first_apart(steps) {
        return Err(Layer::Filing.fault(Refusal::NotJoined { step }));
    }
    *route = Route { steps };
    Ok(())
}
