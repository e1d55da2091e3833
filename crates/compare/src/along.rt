//! A listed route, step by step along the plan.
use crate::plan::{Amount, Plan};
use amounts::forms::{LabelForm, PageCost};
use contents::answer::Step;

/// What a label shows, in plain numbers; absent where it stands on no page.
pub fn plain<C: PageCost>(label: C::Label) -> Option<Amount> {
    let LabelForm { moves, samples } = C::shown(label)?;
    Some(Amount {
        moves: u64::from(moves),
        samples,
    })
}

/// What the steps cost, if they lead from the launcher to the trap through open sections, each with its section's ends
/// and the cost up to its end.
pub fn cost_along<C: PageCost>(plan: &Plan, steps: &[Step<C::Label>]) -> Option<Amount> {
    let mut station = plan.launcher;
    let mut cost = Amount::ZERO;
    for step in steps {
        let pipe = plan.pipes.get(step.section)?;
        cost = cost.plus(pipe.amount);
        let ends_right = pipe.from == step.from && pipe.to == step.to;
        if pipe.shut || pipe.from != station || !ends_right {
            return None;
        }
        if plain::<C>(step.so_far) != Some(cost) {
            return None;
        }
        station = pipe.to;
    }
    (station == plan.trap).then_some(cost)
}
