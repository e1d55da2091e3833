//! Sheets that another hand has written.
use crate::drawn::{
    between, closed_mark, ended, five_stations, floor, foreign, marks, not_ended, open, open_mark,
    page, pair, pipe, sheet, step,
};
use amounts::kinds::Samples;
use faults::Fault;
use faults::Side::{Backward, Forward};
use optimality::sheet::Mark;
use records::kinds::SectionRecord;
use search::running::Unfinished;
use std::alloc::Global;
use std::test::Fail;

/// The largest label that a row holds.
const MOST: i64 = (1 << 44) - 1;

#[test]
fn labels_that_no_row_holds(rt: HostRuntime) -> Result<(), Fail> {
    let page = five_stations(rt.alloc())?;
    let mut sheet = sheet::<5>();
    let mut search = open(&page, &page, &mut sheet)?;
    let floors = [
        (MOST, 2 * MOST + 13),
        (-MOST, 13 - 2 * MOST),
        (MOST + 1, 13),
        (-MOST - 1, 13),
        (i64::MIN, 13),
    ];
    for (label, amount) in floors {
        sheet[0].forward = open_mark(label, None);
        assert_eq!(rt; search.bounds(&sheet), Ok(floor(amount)), "at {label}");
    }
    assert_eq!(rt; step(&mut search, &mut sheet, Forward), Ok(floor(14)));
    let forward = [
        closed_mark(0, None),
        open_mark(4, Some(0)),
        open_mark(2, Some(1)),
        None,
        None,
    ];
    assert_eq!(rt; marks(&sheet, Forward), forward);
    Ok(())
}

/// What a Forward answers from a label that is written at station 0 of three, and the forward marks of the other two
/// after it.
fn forward_from(
    heap: Global,
    label: i64,
    pipes: &[SectionRecord],
) -> Result<(Result<(), Fault>, [Option<Mark<i64>>; 2]), Fail> {
    let page = page::<Samples>(heap, 2, pipes, &[pair(0, 0); 3])?;
    let mut sheet = sheet::<3>();
    let mut search = open(&page, &page, &mut sheet)?;
    sheet[0].forward = open_mark(label, None);
    let answer = search.forward(&mut sheet);
    let [_, first, second] = marks(&sheet, Forward);
    Ok((answer, [first, second]))
}

#[test]
fn labels_that_a_step_cannot_write(rt: HostRuntime) -> Result<(), Fail> {
    // from here the section of most samples leads to the largest label
    let light = MOST - i64::from(u32::MAX);
    let written = [
        (
            MOST - 4,
            [pipe(0, 1, 4), pipe(0, 2, 2)],
            [open_mark(MOST, Some(0)), open_mark(MOST - 2, Some(1))],
        ),
        (
            MOST - 4,
            [pipe(0, 1, 4), pipe(0, 1, 5)],
            [open_mark(MOST, Some(0)), None],
        ),
        (
            light,
            [pipe(0, 1, u32::MAX), pipe(0, 2, 0)],
            [open_mark(MOST, Some(0)), open_mark(light, Some(1))],
        ),
    ];
    for (label, pipes, marks) in written {
        assert_eq!(rt;
            forward_from(rt.alloc(), label, &pipes)?,
            (Ok(()), marks),
            "from {label}"
        );
    }
    let refused = [
        (MOST, [pipe(0, 1, 4), pipe(0, 2, 2)]),
        (MOST - 3, [pipe(0, 1, 4), pipe(0, 2, 2)]),
        (MOST - 3, [pipe(0, 2, 2), pipe(0, 1, 4)]),
        (MOST - 4, [pipe(0, 1, 5), pipe(0, 1, 4)]),
        (light + 1, [pipe(0, 1, u32::MAX), pipe(0, 2, 0)]),
    ];
    for (label, pipes) in refused {
        assert_eq!(rt;
            forward_from(rt.alloc(), label, &pipes)?,
            (Err(foreign(3)), [None; 2]),
            "from {label}"
        );
    }
    Ok(())
}

#[test]
fn a_refused_step_changes_nothing(rt: HostRuntime) -> Result<(), Fail> {
    let page = five_stations(rt.alloc())?;
    let mut sheet = sheet::<5>();
    let mut search = open(&page, &page, &mut sheet)?;
    sheet[4].backward = open_mark(MOST, Some(2));
    assert_eq!(rt; step(&mut search, &mut sheet, Backward), Err(foreign(5)));
    let backward = [None, None, None, None, open_mark(MOST, Some(2))];
    assert_eq!(rt; marks(&sheet, Backward), backward);
    let Err(Unfinished { search, fault }) = search.finish(&sheet) else {
        return Err(Fail::new("finished before its end"));
    };
    assert_eq!(rt; fault, not_ended(0));
    assert_eq!(rt; search.bounds(&sheet), Ok(floor(2 * MOST + 13)));
    Ok(())
}

#[test]
fn the_last_station_is_never_taken(rt: HostRuntime) -> Result<(), Fail> {
    let page = page::<Samples>(rt.alloc(), 0, &[], &[pair(0, 0)])?;
    let mut sheet = sheet::<1>();
    let mut search = open(&page, &page, &mut sheet)?;
    assert_eq!(rt; step(&mut search, &mut sheet, Forward), Err(ended(0)));
    sheet[0].forward = open_mark(-1, None);
    assert_eq!(rt; search.bounds(&sheet), Ok(between(-2, 0, 0)));
    assert_eq!(rt; step(&mut search, &mut sheet, Forward), Err(foreign(1)));
    assert_eq!(rt; marks(&sheet, Forward), [open_mark(-1, None)]);
    Ok(())
}
