//! Wrong answers, none of which may agree.
use crate::along::plain;
use crate::beside::Known;
use crate::drawn::network;
use crate::draws::Draws;
use crate::estimates::{Estimating, estimates};
use crate::paged::{page, view};
use crate::tally::Tally;
use crate::told::{Order, Told, searched};
use crate::wrong::Wrong;
use amounts::forms::PageCost;
use amounts::kinds::{Moves, Samples};
use networks::shut_in::ShutIn;
use pages::view::PageView;
use std::alloc::{AllocError, Global};

/// How many networks of a kind of cost are drawn for each sort of wrong answer.
const NETWORKS: usize = 60;

/// What a search tells where the first section of a route is shut, if its route is then dearer.
fn detour<C: PageCost>(
    heap: Global,
    view: PageView<'_, C>,
    right: &Told<C>,
    known: Known<'_>,
    draws: &mut Draws,
) -> Result<Option<Told<C>>, AllocError> {
    let mut layer = ShutIn::new(view);
    let Some(step) = right.steps.first() else {
        return Ok(None);
    };
    if layer.shut::<C>(step.section).is_err() {
        return Ok(None);
    }
    let order = Order::drawn(draws);
    let other = searched::<C, ShutIn<PageView<'_, C>>, PageView<'_, C>>(
        heap, layer, view, order, draws,
    )?;
    Ok(other.filter(|other| other.cost.and_then(|cost| plain::<C>(cost)) > known.least))
}

/// Makes what is told of one network wrong, and counts it by that; where it cannot be made wrong so, it is not counted.
fn plant<C: PageCost>(
    heap: Global,
    wrong: Wrong,
    draws: &mut Draws,
    tally: &mut Tally,
) -> Result<(), AllocError> {
    let plan = network::<C>(heap, draws)?;
    let pairs = estimates(heap, &plan, Estimating::drawn(draws))?;
    let page = page::<C>(heap, &plan, &pairs)?;
    let Ok(view) = view::<C>(&page) else {
        return Ok(());
    };
    let order = Order::drawn(draws);
    let known = Known::of(heap, &plan)?;
    match searched::<C, PageView<'_, C>, PageView<'_, C>>(heap, view, view, order, draws)? {
        Some(mut answer) if known.agrees::<C>(&answer) => {
            let dearer = detour::<C>(heap, view, &answer, known, draws)?;
            if wrong.plant::<C>(&mut answer, known.least, dearer).is_some() {
                tally.count::<C>(known, Some(&answer));
            }
            Ok(())
        }
        _ => Ok(()),
    }
}

/// Compares wrong answers of one sort.
pub fn compared_wrong(heap: Global, wrong: Wrong, draws: &mut Draws) -> Result<Tally, AllocError> {
    let mut tally = Tally::default();
    for _ in 0..NETWORKS {
        plant::<Samples>(heap, wrong, draws, &mut tally)?;
    }
    for _ in 0..NETWORKS {
        plant::<Moves>(heap, wrong, draws, &mut tally)?;
    }
    Ok(tally)
}
