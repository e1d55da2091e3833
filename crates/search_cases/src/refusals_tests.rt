//! What is turned down, and what then stays.
use crate::drawn::{
    between, five_stations, floor, foreign, marks, open, open_mark, page, pair, pairs, pipes,
    sheet, step, view,
};
use amounts::kinds::Samples;
use faults::Side::{Backward, Forward};
use faults::{Fault, Layer, Refusal, Side};
use networks::estimates::{Estimates, Pair};
use networks::network::Network;
use search::running::Running;
use std::test::Fail;

fn inconsistent(section: usize, side: Side) -> Fault {
    Layer::Search.fault(Refusal::Inconsistent { section, side })
}

#[test]
fn estimates_that_fall_too_fast(rt: HostRuntime) -> Result<(), Fail> {
    let mut pairs = pairs();
    pairs[0] = pair(7, 0);
    let at_the_limit = page::<Samples>(rt.alloc(), 4, &pipes(), &pairs)?;
    let mut sheet = sheet::<5>();
    let search = open(&at_the_limit, &at_the_limit, &mut sheet)?;
    assert_eq!(rt; search.bounds(&sheet), Ok(floor(14)));
    pairs[0] = pair(8, 0);
    let past_it = page::<Samples>(rt.alloc(), 4, &pipes(), &pairs)?;
    sheet[0].forward = open_mark(-7, Some(3));
    let opened = Running::open(view(&past_it)?, view(&past_it)?, &mut sheet);
    let Err(refused) = opened else {
        return Err(Fail::new("opened"));
    };
    assert_eq!(rt; refused.fault, inconsistent(1, Forward));
    assert_eq!(rt; refused.net.stations(), 5);
    assert_eq!(rt;
        refused.estimates.pair(0),
        Some(Pair {
            forward: 8,
            backward: 0
        })
    );
    let forward = [open_mark(-7, Some(3)), None, None, None, None];
    assert_eq!(rt; marks(&sheet, Forward), forward);
    Ok(())
}

#[test]
fn the_first_refusal_of_an_open(rt: HostRuntime) -> Result<(), Fail> {
    let net = five_stations(rt.alloc())?;
    // section 1, from 0 to 2 and of 2 samples, breaks both sides, or backward alone
    let [first, second, _, fourth, fifth] = pairs();
    let backward = [first, second, pair(5, 3), fourth, fifth];
    let both = [pair(8, 0), second, pair(5, 3), fourth, fifth];
    let six = [pair(8, 0), second, pair(5, 3), fourth, fifth, pair(0, 7)];
    let backward = page::<Samples>(rt.alloc(), 0, &[], &backward)?;
    let both = page::<Samples>(rt.alloc(), 0, &[], &both)?;
    let six = page::<Samples>(rt.alloc(), 0, &[], &six)?;
    let mut sheet = sheet::<5>();
    let too_few = Layer::Search.fault(Refusal::TooFewRows { rows: 4 });
    assert_eq!(rt; open(&net, &six, &mut sheet[..4]).err(), Some(too_few));
    let count = Layer::Search.fault(Refusal::EstimateCount { count: 6 });
    let refused = [
        (&six, count),
        (&both, inconsistent(1, Forward)),
        (&backward, inconsistent(1, Backward)),
    ];
    for (estimates, fault) in refused {
        assert_eq!(rt; open(&net, estimates, &mut sheet).err(), Some(fault));
    }
    assert!(rt; open(&net, &net, &mut sheet).is_ok());
    Ok(())
}

#[test]
fn too_short_a_sheet(rt: HostRuntime) -> Result<(), Fail> {
    let page = five_stations(rt.alloc())?;
    let mut sheet = sheet::<5>();
    let search = open(&page, &page, &mut sheet)?;
    // a search that is not ended, and then the same one ended
    let Err(refused) = search.finish(&sheet[..4]) else {
        return Err(Fail::new("finished over four rows"));
    };
    assert_eq!(rt; refused.fault, foreign(4));
    let mut search = refused.search;
    for _ in 0..3 {
        step(&mut search, &mut sheet, Forward)?;
    }
    for side in [Forward, Backward] {
        assert_eq!(rt; step(&mut search, &mut sheet[..3], side), Err(foreign(3)));
    }
    assert_eq!(rt; search.bounds(&sheet[..0]), Err(foreign(0)));
    assert_eq!(rt; search.bounds(&sheet), Ok(between(16, 8, 4)));
    Ok(())
}
