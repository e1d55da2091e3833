//! What searches find.
use crate::drawn::{ended, five_stations, open, page, pair, pairs, pipes, sheet, step, view};
use crate::hours::{Hours, TwoWays};
use amounts::cost::Cost;
use amounts::kinds::{Moves, MovesLabel, Samples};
use faults::{Fault, Side};
use networks::blank::Blank;
use networks::estimates::Estimates;
use networks::network::Network;
use networks::shut_in::ShutIn;
use optimality::sheet::Row;
use search::running::{Finished, Running};
use std::test::Fail;
use twinline::twin_line::{Drawing, TwinLine};

/// The cost that a search finds, or absent where there is no route, and how many stations it took.
fn answer<C: Cost, N, E>(finished: &Finished<C, N, E>) -> (Option<C::Label>, usize) {
    match finished {
        Finished::Found(found) => (Some(found.cost()), found.taken()),
        Finished::NoRoute(none) => (None, none.taken()),
    }
}

/// Searches from both ends in turn, and answers the cost of the route.
fn cost_in_turn<C: Cost, N: Network<C> + Drop, E: Estimates<C> + Drop>(
    net: N,
    estimates: E,
    sheet: &mut [Row<C>],
) -> Result<Option<C::Label>, Fault> {
    let mut search = Running::open(net, estimates, sheet)?;
    for turn in 0..sheet.len() {
        let step = if turn % 2 == 0 {
            search.forward(sheet)
        } else {
            search.backward(sheet)
        };
        if step.is_err() {
            break;
        }
    }
    let (cost, _) = answer(&search.finish(sheet)?);
    Ok(cost)
}

#[test]
fn valve_moves_before_samples(rt: HostRuntime) -> Result<(), Fail> {
    let mut pipes = pipes();
    pipes[1].amount.moves = 1;
    let page = page::<Moves>(rt.alloc(), 4, &pipes, &[pair(0, 0); 5])?;
    let mut sheet = [
        Row::blank(),
        Row::blank(),
        Row::blank(),
        Row::blank(),
        Row::blank(),
    ];
    let cost = MovesLabel {
        moves: 0,
        samples: 9,
    };
    assert_eq!(rt;
        cost_in_turn(view::<Moves>(&page)?, Blank::new(5)?, &mut sheet),
        Ok(Some(cost))
    );
    Ok(())
}

#[test]
fn along_a_twin_line(rt: HostRuntime) -> Result<(), Fail> {
    let line = TwinLine::new(Drawing {
        count: 3,
        spacing: 2,
        upper: 1_000,
        lower: 500,
        crossover: 125,
        rate: 256,
    })?;
    let mut sheet = sheet::<6>();
    assert_eq!(rt;
        cost_in_turn(line, Blank::new(6)?, &mut sheet),
        Ok(Some(288))
    );
    Ok(())
}

#[test]
fn no_open_section_to_the_trap(rt: HostRuntime) -> Result<(), Fail> {
    let page = five_stations(rt.alloc())?;
    let mut net = ShutIn::new(view::<Samples>(&page)?);
    assert_eq!(rt; net.shut(3), Ok(()));
    assert_eq!(rt; net.shut(5), Ok(()));
    let mut sheet = sheet::<5>();
    let search = Running::open(net, view::<Samples>(&page)?, &mut sheet);
    let Ok(mut search) = search else {
        return Err(Fail::new("not opened"));
    };
    assert_eq!(rt; search.backward(&mut sheet), Ok(()));
    assert_eq!(rt; search.forward(&mut sheet), Err(ended(1)));
    let Ok(finished) = search.finish(&sheet) else {
        return Err(Fail::new("not ended"));
    };
    assert_eq!(rt; answer(&finished), (None, 1));
    Ok(())
}

#[test]
fn launcher_and_trap_in_one(rt: HostRuntime) -> Result<(), Fail> {
    let page = page::<Samples>(rt.alloc(), 0, &pipes(), &pairs())?;
    let mut sheet = sheet::<5>();
    let mut search = open(&page, &page, &mut sheet)?;
    for side in [Side::Forward, Side::Backward] {
        assert_eq!(rt; step(&mut search, &mut sheet, side), Err(ended(0)));
    }
    let Ok(finished) = search.finish(&sheet) else {
        return Err(Fail::new("not ended"));
    };
    assert_eq!(rt; answer(&finished), (Some(0), 0));
    Ok(())
}

#[test]
fn crew_hours_that_no_page_holds(rt: HostRuntime) -> Result<(), Fail> {
    let mut sheet = [Row::blank(), Row::blank()];
    assert_eq!(rt;
        cost_in_turn::<Hours, _, _>(TwoWays, Blank::new(2)?, &mut sheet),
        Ok(Some(3))
    );
    Ok(())
}
