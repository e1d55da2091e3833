//! Right answers that are made wrong.
use crate::along::plain;
use crate::paged::label_form;
use crate::plan::Amount;
use crate::told::Told;
use amounts::forms::PageCost;
use contents::answer::Step;
use optimality::sheet::Ceiling;
use std::{fmt, mem};

/// What is made wrong of what a search tells.
#[derive(Clone, Copy, Debug, PartialEq, Eq)]
pub enum Wrong {
    NoRoute,
    Route,
    HigherCost,
    LowerCost,
    DearerRoute,
    DearerSteps,
    HighFloor,
    LowCeiling,
    AnyCeiling,
    SoFar,
    StepLeftOut,
    EndsExchanged,
    NoSuchSection,
}

impl fmt::Display for Wrong {
    fn fmt<W: fmt::Write>(&self, f: &mut fmt::Formatter<W>) -> fmt::Result {
        f.write_str(match self {
            Wrong::NoRoute => "no route where there is one",
            Wrong::Route => "a route where there is none",
            Wrong::HigherCost => "a cost one sample too high",
            Wrong::LowerCost => "a cost one sample too low",
            Wrong::DearerRoute => "a dearer route",
            Wrong::DearerSteps => "a dearer route at the least cost",
            Wrong::HighFloor => "a floor above twice the least cost",
            Wrong::LowCeiling => "a ceiling below the least cost",
            Wrong::AnyCeiling => "a ceiling where there is no route",
            Wrong::SoFar => "a wrong cost so far",
            Wrong::StepLeftOut => "the last step left out",
            Wrong::EndsExchanged => "a step with its ends exchanged",
            Wrong::NoSuchSection => "a section that is not there",
        })
    }
}

/// An amount of one sample more.
fn more(amount: Amount) -> Amount {
    Amount {
        samples: amount.samples.saturating_add(1),
        ..amount
    }
}

/// An amount of one sample less, where it has samples.
fn less(amount: Amount) -> Option<Amount> {
    Some(Amount {
        samples: amount.samples.checked_sub(1)?,
        ..amount
    })
}

fn label<C: PageCost>(amount: Amount) -> Option<C::Label> {
    C::told(label_form(amount))
}

fn lose_route<C: PageCost>(told: &mut Told<C>) -> Option<()> {
    told.cost.take()?;
    told.steps.clear();
    Some(())
}

fn tell_cost<C: PageCost>(told: &mut Told<C>, cost: C::Label) -> Option<()> {
    told.cost = Some(cost);
    Some(())
}

fn tell_floor<C: PageCost>(told: &mut Told<C>, floor: C::Label) -> Option<()> {
    told.bounds.last_mut()?.floor = Some(floor);
    Some(())
}

fn tell_ceiling<C: PageCost>(told: &mut Told<C>, amount: C::Label) -> Option<()> {
    told.bounds.last_mut()?.ceiling = Ceiling::Met { amount, station: 0 };
    Some(())
}

fn raise_so_far<C: PageCost>(step: &mut Step<C::Label>) -> Option<()> {
    step.so_far = label::<C>(more(plain::<C>(step.so_far)?))?;
    Some(())
}

/// Whether a step leads to another station, so that a route without it, or with its ends exchanged, is another route.
fn lead_on<L>(step: &Step<L>) -> Option<()> {
    (step.from != step.to).then_some(())
}

fn exchange_ends<L>(step: &mut Step<L>) -> Option<()> {
    lead_on(step)?;
    mem::swap(&mut step.from, &mut step.to);
    Some(())
}

impl Wrong {
    pub const ALL: [Wrong; 13] = [
        Wrong::NoRoute,
        Wrong::Route,
        Wrong::HigherCost,
        Wrong::LowerCost,
        Wrong::DearerRoute,
        Wrong::DearerSteps,
        Wrong::HighFloor,
        Wrong::LowCeiling,
        Wrong::AnyCeiling,
        Wrong::SoFar,
        Wrong::StepLeftOut,
        Wrong::EndsExchanged,
        Wrong::NoSuchSection,
    ];

    /// Makes a right answer wrong, by a dearer one where there is one; absent where it cannot be made wrong so.
    pub fn plant<C: PageCost>(
        self,
        told: &mut Told<C>,
        least: Option<Amount>,
        dearer: Option<Told<C>>,
    ) -> Option<()> {
        match self {
            Wrong::NoRoute => lose_route(told),
            Wrong::Route if told.cost.is_some() => None,
            Wrong::Route => tell_cost(told, C::ZERO),
            Wrong::HigherCost => tell_cost(told, label::<C>(more(least?))?),
            Wrong::LowerCost => tell_cost(told, label::<C>(less(least?)?)?),
            Wrong::DearerRoute => {
                let dearer = dearer?;
                told.steps = dearer.steps;
                tell_cost(told, dearer.cost?)
            }
            Wrong::DearerSteps => {
                told.steps = dearer?.steps;
                Some(())
            }
            Wrong::HighFloor => {
                let least = least?;
                tell_floor(told, label::<C>(more(least.plus(least)))?)
            }
            Wrong::LowCeiling => tell_ceiling(told, label::<C>(less(least?)?)?),
            Wrong::AnyCeiling if least.is_some() => None,
            Wrong::AnyCeiling => tell_ceiling(told, C::ZERO),
            Wrong::SoFar => raise_so_far::<C>(told.steps.first_mut()?),
            Wrong::StepLeftOut => lead_on(&told.steps.pop()?),
            Wrong::EndsExchanged => exchange_ends(told.steps.first_mut()?),
            Wrong::NoSuchSection => {
                told.steps.first_mut()?.section = usize::MAX;
                Some(())
            }
        }
    }
}
