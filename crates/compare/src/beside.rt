//! What a search tells, beside the least cost of a plan.
use crate::along::{cost_along, plain};
use crate::draws::Draws;
use crate::paged::label_form;
use crate::plan::{Amount, Plan};
use crate::tally::Tally;
use crate::told::{Order, Told, searched};
use amounts::forms::PageCost;
use networks::estimates::Estimates;
use networks::network::Network;
use optimality::sheet::Ceiling;
use search::running::Bounds;
use std::alloc::{AllocError, Global};

/// The plan of a network, and the least cost there; absent where there is no route.
#[derive(Clone, Copy)]
pub struct Known<'a> {
    plan: &'a Plan,
    pub least: Option<Amount>,
}

/// Whether twice the least cost is at least the floor.
fn floor_holds<C: PageCost>(floor: Option<C::Label>, least: Amount) -> bool {
    // Kept: as labels, since a floor may be below zero, which plain numbers are not.
    let Some(twice) = C::told(label_form(least.plus(least))) else {
        return false;
    };
    let Some(floor) = floor else {
        return false;
    };
    C::at_most(floor, twice)
}

impl<'a> Known<'a> {
    /// Works the least cost out, by the method of Bellman and Ford.
    pub fn of(heap: Global, plan: &'a Plan) -> Result<Known<'a>, AllocError> {
        Ok(Known {
            plan,
            least: plan.least(heap)?.get(plan.trap).copied().flatten(),
        })
    }

    /// Whether twice the least cost is at least the floor, and the ceiling at least the least cost.
    fn bounds_hold<C: PageCost>(self, bounds: Bounds<C::Label>) -> bool {
        let Some(least) = self.least else {
            return matches!(bounds.ceiling, Ceiling::Absent);
        };
        let ceiling = match bounds.ceiling {
            Ceiling::Met { amount, .. } => plain::<C>(amount),
            Ceiling::Absent => Some(least),
        };
        floor_holds::<C>(bounds.floor, least) && Some(least) <= ceiling
    }

    /// Whether a cost is the least one and the steps are a route of that cost, or there is neither cost nor route.
    fn ending_holds<C: PageCost>(self, told: &Told<C>) -> bool {
        match told.cost {
            Some(cost) => {
                self.least.is_some()
                    && plain::<C>(cost) == self.least
                    && cost_along::<C>(self.plan, &told.steps) == self.least
            }
            None => self.least.is_none(),
        }
    }

    /// Whether all that a search tells is so: the bounds each time, and how it ends.
    pub fn agrees<C: PageCost>(self, told: &Told<C>) -> bool {
        for bounds in &told.bounds {
            if !self.bounds_hold::<C>(*bounds) {
                return false;
            }
        }
        self.ending_holds::<C>(told)
    }
}

/// Searches a network in an order that is drawn, and counts it by what is told, beside the least cost of its plan.
pub fn compared<C: PageCost, N: Network<C> + Drop, E: Estimates<C> + Drop>(
    heap: Global,
    net: N,
    estimates: E,
    plan: &Plan,
    draws: &mut Draws,
    tally: &mut Tally,
) -> Result<(), AllocError> {
    let known = Known::of(heap, plan)?;
    let order = Order::drawn(draws);
    let told = searched::<C, N, E>(heap, net, estimates, order, draws)?;
    tally.count::<C>(known, told.as_ref());
    Ok(())
}
