//! Families of networks.
use crate::beside::compared;
use crate::drawn::{drawing, network, plan_of};
use crate::draws::Draws;
use crate::estimates::{Estimating, estimates};
use crate::paged::{page, view};
use crate::plan::Plan;
use crate::tally::Tally;
use amounts::forms::PageCost;
use amounts::kinds::{Moves, Samples};
use networks::blank::Blank;
use networks::network::Network;
use networks::shut_in::ShutIn;
use pages::view::PageView;
use std::alloc::{AllocError, Global};
use std::fmt;
use twinline::twin_line::TwinLine;

/// How many networks a family has.
const NETWORKS: usize = 60;

#[derive(Clone, Copy, Debug, PartialEq, Eq)]
pub enum Kind {
    Samples,
    Moves,
}

impl Kind {
    pub fn word(self) -> &'static str {
        match self {
            Kind::Samples => "samples",
            Kind::Moves => "moves",
        }
    }
}

/// What its networks are.
#[derive(Clone, Copy, Debug, PartialEq, Eq)]
pub enum Shape {
    TwinLine,
    Page,
}

/// A kind of cost, a shape, and whether a layer shuts some sections over it.
#[derive(Clone, Copy, Debug, PartialEq, Eq)]
pub struct Family {
    pub kind: Kind,
    pub shape: Shape,
    pub shut_in: bool,
}

impl fmt::Display for Family {
    fn fmt<W: fmt::Write>(&self, f: &mut fmt::Formatter<W>) -> fmt::Result {
        let shape = match self.shape {
            Shape::TwinLine => "twin lines",
            Shape::Page => "pages",
        };
        let kind = self.kind.word();
        let layer = if self.shut_in { ", shut in" } else { "" };
        write!(f, "{shape} in {kind}{layer}")
    }
}

/// A network to be compared: its plan, how its estimates are made, and whether a layer shuts some of its sections.
#[derive(Debug, Drop)]
struct Case {
    plan: Plan,
    estimating: Estimating,
    shut_in: bool,
}

/// Goes by the estimates of a page, or by blank ones.
fn with_estimates<C: PageCost, N: Network<C> + Drop>(
    heap: Global,
    net: N,
    page: PageView<'_, C>,
    case: &Case,
    draws: &mut Draws,
    tally: &mut Tally,
) -> Result<(), AllocError> {
    match (case.estimating, Blank::new(case.plan.stations)) {
        (Estimating::Blank, Ok(blank)) => compared::<C, N, Blank>(
            heap, net, blank, &case.plan, draws, tally,
        ),
        _ => compared::<C, N, PageView<'_, C>>(heap, net, page, &case.plan, draws, tally),
    }
}

/// Shuts some sections, of the plan too.
fn shut_some<C: PageCost, N: Network<C>>(
    layer: &mut ShutIn<N>,
    plan: &mut Plan,
    draws: &mut Draws,
) {
    for _ in 0..draws.below(9) {
        let number = draws.index(plan.pipes.len());
        let shut = layer.shut::<C>(number);
        if let (Ok(()), Some(pipe)) = (shut, plan.pipes.get_mut(number)) {
            pipe.shut = true;
        }
    }
}

fn with_layer<C: PageCost, N: Network<C> + Drop>(
    heap: Global,
    net: N,
    page: PageView<'_, C>,
    mut case: Case,
    draws: &mut Draws,
    tally: &mut Tally,
) -> Result<(), AllocError> {
    if !case.shut_in {
        return with_estimates::<C, N>(heap, net, page, &case, draws, tally);
    }
    let mut layer = ShutIn::new(net);
    shut_some::<C, N>(&mut layer, &mut case.plan, draws);
    with_estimates::<C, ShutIn<N>>(heap, layer, page, &case, draws, tally)
}

/// The page of a case, with its estimates.
fn page_of<C: PageCost>(heap: Global, case: &Case) -> Result<Vec<u8>, AllocError> {
    let pairs = estimates(heap, &case.plan, case.estimating)?;
    page::<C>(heap, &case.plan, &pairs)
}

/// Compares one twin line.
fn twin_line<C: PageCost>(
    heap: Global,
    shut_in: bool,
    draws: &mut Draws,
    tally: &mut Tally,
) -> Result<(), AllocError> {
    let Ok(line) = TwinLine::new(drawing(draws)) else {
        tally.count_unmade();
        return Ok(());
    };
    let case = Case {
        plan: plan_of::<C, TwinLine>(heap, &line)?,
        estimating: Estimating::drawn(draws),
        shut_in,
    };
    let page = page_of::<C>(heap, &case)?;
    let Ok(view) = view::<C>(&page) else {
        tally.count_unmade();
        return Ok(());
    };
    with_layer::<C, TwinLine>(heap, line, view, case, draws, tally)
}

/// Compares one network that a page holds.
fn page_network<C: PageCost>(
    heap: Global,
    shut_in: bool,
    draws: &mut Draws,
    tally: &mut Tally,
) -> Result<(), AllocError> {
    let case = Case {
        plan: network::<C>(heap, draws)?,
        estimating: Estimating::drawn(draws),
        shut_in,
    };
    let page = page_of::<C>(heap, &case)?;
    let Ok(view) = view::<C>(&page) else {
        tally.count_unmade();
        return Ok(());
    };
    with_layer::<C, PageView<'_, C>>(heap, view, view, case, draws, tally)
}

impl Family {
    fn counted<C: PageCost>(self, heap: Global, draws: &mut Draws) -> Result<Tally, AllocError> {
        let mut tally = Tally::default();
        for _ in 0..NETWORKS {
            match self.shape {
                Shape::TwinLine => twin_line::<C>(heap, self.shut_in, draws, &mut tally)?,
                Shape::Page => page_network::<C>(heap, self.shut_in, draws, &mut tally)?,
            }
        }
        Ok(tally)
    }

    /// Compares the networks of the family.
    pub fn tally(self, heap: Global, draws: &mut Draws) -> Result<Tally, AllocError> {
        match self.kind {
            Kind::Samples => self.counted::<Samples>(heap, draws),
            Kind::Moves => self.counted::<Moves>(heap, draws),
        }
    }
}
