//! Steps, and what they leave on the sheet.
use crate::drawn::{
    between, closed_mark, ended, five_stations, floor, marks, not_ended, open, open_mark, page,
    pair, pipe, sheet, step,
};
use amounts::kinds::Samples;
use faults::Side::{Backward, Forward};
use search::running::Finished;
use std::test::Fail;

#[test]
fn both_ends_in_turn(rt: HostRuntime) -> Result<(), Fail> {
    let page = five_stations(rt.alloc())?;
    let mut sheet = sheet::<5>();
    let mut search = open(&page, &page, &mut sheet)?;
    assert_eq!(rt; search.bounds(&sheet), Ok(floor(13)));
    let steps = [
        (Forward, floor(14)),
        (Backward, between(14, 9, 1)),
        (Forward, between(15, 8, 1)),
        (Backward, between(16, 8, 1)),
    ];
    for (taken, (side, bounds)) in steps.into_iter().enumerate() {
        let Err(refused) = search.finish(&sheet) else {
            return Err(Fail::new("finished before its end"));
        };
        assert_eq!(rt; refused.fault, not_ended(taken));
        search = refused.search;
        assert_eq!(rt; step(&mut search, &mut sheet, side), Ok(bounds));
    }
    for side in [Forward, Backward] {
        assert_eq!(rt; step(&mut search, &mut sheet, side), Err(ended(4)));
    }
    let Ok(Finished::Found(found)) = search.finish(&sheet) else {
        return Err(Fail::new("no route"));
    };
    assert_eq!(rt; (found.cost(), found.taken()), (8, 4));
    Ok(())
}

#[test]
fn forward_alone_over_a_longer_sheet(rt: HostRuntime) -> Result<(), Fail> {
    let page = five_stations(rt.alloc())?;
    let mut sheet = sheet::<6>();
    sheet[5].forward = open_mark(-7, Some(3));
    sheet[5].backward = closed_mark(-9, None);
    let mut search = open(&page, &page, &mut sheet)?;
    let steps = [
        Ok(floor(14)),
        Ok(floor(15)),
        Ok(between(16, 8, 4)),
        Err(ended(3)),
    ];
    for bounds in steps {
        assert_eq!(rt; step(&mut search, &mut sheet, Forward), bounds);
    }
    let forward = [
        closed_mark(0, None),
        closed_mark(3, Some(2)),
        closed_mark(2, Some(1)),
        open_mark(8, Some(4)),
        open_mark(8, Some(3)),
        open_mark(-7, Some(3)),
    ];
    let opened = open_mark(0, None);
    let backward = [None, None, None, None, opened, closed_mark(-9, None)];
    assert_eq!(rt; marks(&sheet, Forward), forward);
    assert_eq!(rt; marks(&sheet, Backward), backward);
    Ok(())
}

#[test]
fn the_first_of_equals(rt: HostRuntime) -> Result<(), Fail> {
    // two ways from 0 to 3 that cost the same, by 2 and by 1, the second with two equal sections to 1
    let pipes = [
        pipe(0, 2, 2),
        pipe(0, 1, 2),
        pipe(0, 1, 2),
        pipe(2, 3, 3),
        pipe(1, 3, 3),
    ];
    let page = page::<Samples>(rt.alloc(), 3, &pipes, &[pair(0, 0); 4])?;
    let mut sheet = sheet::<4>();
    // the ceiling keeps the station at which the sides met first
    let mut search = open(&page, &page, &mut sheet)?;
    for (side, bounds) in [(Forward, floor(4)), (Backward, between(10, 5, 2))] {
        assert_eq!(rt; step(&mut search, &mut sheet, side), Ok(bounds));
    }
    // the lower of two stations is taken, and a label keeps the section by which it came first
    let mut search = open(&page, &page, &mut sheet)?;
    for bounds in [floor(4), between(4, 5, 3)] {
        assert_eq!(rt; step(&mut search, &mut sheet, Forward), Ok(bounds));
    }
    let forward = [
        closed_mark(0, None),
        closed_mark(2, Some(1)),
        open_mark(2, Some(0)),
        open_mark(5, Some(4)),
    ];
    assert_eq!(rt; marks(&sheet, Forward), forward);
    Ok(())
}
