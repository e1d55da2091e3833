//! A search, and what it tells.
use crate::draws::Draws;
use amounts::cost::Cost;
use amounts::forms::PageCost;
use contents::answer::Step;
use faults::Side;
use filing::chain::{Route, chain};
use filing::route::route;
use networks::estimates::Estimates;
use networks::network::Network;
use optimality::sheet::Row;
use search::running::{Bounds, Finished, Found, Running};
use std::alloc::{AllocError, Global};

/// The orders in which the two ends of a search are pushed forward.
#[derive(Clone, Copy, Debug, PartialEq, Eq)]
pub enum Order {
    InTurn,
    Forward,
    Backward,
    Drawn,
}

impl Order {
    pub fn drawn(draws: &mut Draws) -> Order {
        match draws.below(6) {
            0 => Order::Forward,
            1 => Order::Backward,
            2 => Order::Drawn,
            _ => Order::InTurn,
        }
    }

    /// The end that comes next, after so many steps.
    fn side(self, steps: usize, draws: &mut Draws) -> Side {
        let forward = match self {
            Order::InTurn => steps % 2 == 0,
            Order::Forward => true,
            Order::Backward => false,
            Order::Drawn => draws.one_in(2),
        };
        if forward {
            Side::Forward
        } else {
            Side::Backward
        }
    }
}

/// What a search tells: its bounds before each step and at the end, and how it ends.
#[derive(Drop)]
pub struct Told<C: Cost> {
    pub bounds: Vec<Bounds<C::Label>>,
    /// The cost of its route; absent where it ends with none.
    pub cost: Option<C::Label>,
    pub steps: Vec<Step<C::Label>>,
}

/// What a search is lent: its sheet, and two lists for the route.
#[derive(Drop)]
struct Lists<C: Cost> {
    sheet: Vec<Row<C>>,
    steps: Vec<Step<C::Label>>,
    turning: Vec<Step<C::Label>>,
}

impl<C: Cost> Lists<C> {
    /// A row and a step for each of so many stations.
    fn blank(heap: Global, stations: usize) -> Result<Lists<C>, AllocError> {
        let step = Step {
            section: 0,
            from: 0,
            to: 0,
            so_far: C::ZERO,
        };
        let mut lists = Lists {
            sheet: Vec::new(heap),
            steps: Vec::new(heap),
            turning: Vec::new(heap),
        };
        for _ in 0..stations {
            lists.sheet.push(Row::blank())?;
            lists.steps.push(step)?;
            lists.turning.push(step)?;
        }
        Ok(lists)
    }
}

/// Pushes a search forward until it is ended, and notes its bounds; absent where they are refused.
fn pushed<C: Cost, N: Network<C>, E: Estimates<C>>(
    heap: Global,
    search: &mut Running<C, N, E>,
    sheet: &mut [Row<C>],
    order: Order,
    draws: &mut Draws,
) -> Result<Option<Vec<Bounds<C::Label>>>, AllocError> {
    let mut noted = Vec::new(heap);
    for steps in 0..sheet.len() {
        let Ok(bounds) = search.bounds(sheet) else {
            return Ok(None);
        };
        noted.push(bounds)?;
        let step = match order.side(steps, draws) {
            Side::Forward => search.forward(sheet),
            Side::Backward => search.backward(sheet),
        };
        if step.is_err() {
            break;
        }
    }
    Ok(Some(noted))
}

/// The steps of a found route, chained; absent where they are refused.
fn chained<C: PageCost, N: Network<C>, E: Estimates<C>>(
    heap: Global,
    found: &Found<C, N, E>,
    lists: &mut Lists<C>,
) -> Result<Option<Vec<Step<C::Label>>>, AllocError> {
    let Ok(count) = route(found, &lists.sheet, &mut lists.steps, &mut lists.turning) else {
        return Ok(None);
    };
    let mut route = Route::empty();
    let listed = lists.steps.get(..count).unwrap_or_default();
    if chain(listed, &mut route).is_err() {
        return Ok(None);
    }
    let mut steps = Vec::new(heap);
    for step in route.steps() {
        steps.push(*step)?;
    }
    Ok(Some(steps))
}

/// Searches a network to the end, in an order; absent where a call is refused.
pub fn searched<C: PageCost, N: Network<C> + Drop, E: Estimates<C> + Drop>(
    heap: Global,
    net: N,
    estimates: E,
    order: Order,
    draws: &mut Draws,
) -> Result<Option<Told<C>>, AllocError> {
    let mut lists = Lists::blank(heap, net.stations())?;
    let Ok(mut search) = Running::open(net, estimates, &mut lists.sheet) else {
        return Ok(None);
    };
    let Some(bounds) = pushed(heap, &mut search, &mut lists.sheet, order, draws)? else {
        return Ok(None);
    };
    match search.finish(&lists.sheet) {
        Ok(Finished::Found(found)) => Ok(chained(heap, &found, &mut lists)?.map(|steps| Told {
            bounds,
            cost: Some(found.cost()),
            steps,
        })),
        Ok(Finished::NoRoute(_)) => Ok(Some(Told {
            bounds,
            cost: None,
            steps: Vec::new(heap),
        })),
        Err(_) => Ok(None),
    }
}
