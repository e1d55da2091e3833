//! A twin line whose least cost is known by hand.
use crate::along::plain;
use crate::beside::Known;
use crate::drawn::plan_of;
use crate::draws::Draws;
use crate::plan::Amount;
use crate::told::{Order, searched};
use amounts::forms::PageCost;
use networks::blank::Blank;
use std::alloc::{AllocError, Global};
use twinline::twin_line::{Drawing, TwinLine};

/// Three stations a pipe, crossovers at the first and the third; 256 samples per metre, so 256 a section of the upper
/// pipe, 128 of the lower one, and 32 a crossover. The best way is a crossover and the lower pipe: 32 + 128 + 128.
const DRAWING: Drawing = Drawing {
    count: 3,
    spacing: 2,
    upper: 1000,
    lower: 500,
    crossover: 125,
    rate: 256,
};

/// The cost that a search from both ends in turn finds there; absent where what it tells does not agree.
pub fn worked_cost<C: PageCost>(
    heap: Global,
    draws: &mut Draws,
) -> Result<Option<Amount>, AllocError> {
    let (Ok(line), Ok(blank)) = (TwinLine::new(DRAWING), Blank::new(2 * DRAWING.count)) else {
        return Ok(None);
    };
    let plan = plan_of::<C, TwinLine>(heap, &line)?;
    let known = Known::of(heap, &plan)?;
    match searched::<C, TwinLine, Blank>(heap, line, blank, Order::InTurn, draws)? {
        Some(told) if known.agrees::<C>(&told) => Ok(told.cost.and_then(|cost| plain::<C>(cost))),
        _ => Ok(None),
    }
}
