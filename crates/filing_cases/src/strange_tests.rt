//! Sheets that another hand has written after Finish.
use crate::drawn::{FIRST, IN_TURN, SECOND, UNWRITTEN, changed, foreign, found, front, sheet};
use amounts::kinds::Samples;
use contents::answer::Step;
use faults::Side::{self, Backward, Forward};
use filing::file::file;
use filing::route::route;
use optimality::sheet::{Mark, Row};
use page_cases::worked::PLAIN;
use std::test::Fail;

/// Bytes of the page of five stations that are changed.
type Changes = &'static [(usize, u8)];

/// Section 0 from 1 back to 2.
const BACK: Changes = &[(10 + 3, 1), (10 + 5, 2)];

/// Section 0 shut.
const SHUT: Changes = &[(10 + 1, 1)];

/// Section 4 from 1 to 3.
const ASIDE: Changes = &[(58 + 3, 1)];

/// A mark that another hand writes for a side at a station.
type Written = (usize, Side, Option<Mark<i64>>);

/// By a section, with a label that nobody looks at.
fn by(station: usize, side: Side, arrival: usize) -> Written {
    let mark = Mark {
        label: -5,
        arrival: Some(arrival),
        closed: false,
    };
    (station, side, Some(mark))
}

fn write(sheet: &mut [Row<Samples>], marks: &[Written]) {
    for (station, side, mark) in marks {
        if let Some(row) = sheet.get_mut(*station) {
            row.write(*side, *mark);
        }
    }
}

#[test]
fn arrivals_that_are_no_route(rt: HostRuntime) -> Result<(), Fail> {
    let opened = Mark {
        label: 0,
        arrival: None,
        closed: true,
    };
    let sheets: [(Changes, &[Written]); 12] = [
        // a ring, on either side
        (BACK, &[by(2, Forward, 0)]),
        (BACK, &[by(1, Backward, 0), by(2, Backward, 2)]),
        // as many steps as stations
        (BACK, &[by(1, Backward, 0)]),
        // a section that is shut, that does not lead there, that is not there
        (SHUT, &[by(1, Forward, 0)]),
        (&[], &[by(1, Forward, 3)]),
        (&[], &[by(1, Backward, 0)]),
        (&[], &[by(0, Forward, 5)]),
        (&[], &[by(1, Forward, 6)]),
        (&[], &[by(2, Forward, usize::MAX)]),
        // no arrival, at a station that is not the launcher, or not the trap
        (&[], &[(2, Forward, None)]),
        (&[], &[(2, Forward, Some(opened))]),
        (&[], &[(1, Backward, None)]),
    ];
    for (case, (changes, marks)) in sheets.into_iter().enumerate() {
        let page = changed(PLAIN, changes);
        let mut sheet = sheet::<Samples>();
        let found = found(&page, &IN_TURN, &mut sheet)?;
        write(&mut sheet, marks);
        let mut steps = [UNWRITTEN; 5];
        let mut turning = [UNWRITTEN; 5];
        let listed = route(&found, &sheet, &mut steps, &mut turning);
        assert_eq!(rt; listed, Err(foreign(6)), "case {case}");
        let mut out = [0xaa; 300];
        let filed = file(&found, 7, &sheet, &mut steps, &mut turning, &mut out);
        assert_eq!(rt; filed, Err(foreign(6)), "case {case}");
        assert_eq!(rt; (steps, turning), ([UNWRITTEN; 5], [UNWRITTEN; 5]));
        assert!(rt; out.iter().all(|byte| *byte == 0xaa));
    }
    Ok(())
}

fn step(section: usize, from: usize, to: usize, so_far: i64) -> Step<i64> {
    Step {
        section,
        from,
        to,
        so_far,
    }
}

#[test]
fn arrivals_that_are_a_dearer_route(rt: HostRuntime) -> Result<(), Fail> {
    let direct = step(0, 0, 1, 4);
    let sheets: [(Changes, Written, &[Step<i64>], &[Step<i64>], usize); 2] = [
        (
            &[],
            by(1, Forward, 0),
            &[direct, step(3, 1, 4, 9)],
            &[direct],
            208 + 2 * 13,
        ),
        (
            ASIDE,
            by(1, Backward, 4),
            &[FIRST, SECOND, step(4, 1, 3, 9), step(5, 3, 4, 10)],
            &[SECOND, FIRST],
            208 + 4 * 13,
        ),
    ];
    for (changes, mark, whole, turned, bytes) in sheets {
        let page = changed(PLAIN, changes);
        let mut sheet = sheet::<Samples>();
        let found = found(&page, &IN_TURN, &mut sheet)?;
        assert_eq!(rt; found.cost(), 8);
        write(&mut sheet, &[mark]);
        let mut steps = [UNWRITTEN; 5];
        let mut turning = [UNWRITTEN; 5];
        let count = whole.len();
        assert_eq!(rt; route(&found, &sheet, &mut steps, &mut turning), Ok(count));
        assert_eq!(rt; steps.get(..count), Some(whole));
        assert_eq!(rt; turning.get(..turned.len()), Some(turned));
        let mut out = [0xaa; 300];
        let filed = file(&found, 7, &sheet, &mut steps, &mut turning, &mut out);
        assert_eq!(rt; filed, Ok(bytes));
        let filed = front::<Samples>(&out, bytes)?;
        assert_eq!(rt;
            filed.answer().map(|answer| answer.cost),
            whole.last().map(|step| step.so_far)
        );
        assert!(rt; filed.retrace());
    }
    Ok(())
}
