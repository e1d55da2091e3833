//! Filed pages.
use crate::drawn::{
    FIRST, IN_TURN, SECOND, THIRD, UNWRITTEN, changed, finished, foreign, found, front, sheet,
    short_list, short_page,
};
use amounts::kinds::{Moves, MovesLabel, Samples};
use contents::answer::{Outcome, Step};
use faults::Fault;
use faults::Side::{self, Backward};
use filing::file::{file, file_none};
use page_cases::worked::{ANSWERED, PLAIN, UNREACHED};
use search::running::Finished;
use std::test::Fail;

/// Files what a search over a page ends in, in samples, over the front of another page, and answers how many bytes.
fn filed(page: &[u8], sides: &[Side], run: u32, out: &mut [u8]) -> Result<usize, Fault> {
    let mut sheet = sheet::<Samples>();
    let finished = finished(page, sides, &mut sheet)?;
    let mut steps = [UNWRITTEN; 3];
    let mut turning = [UNWRITTEN; 3];
    match finished {
        Finished::Found(found) => file(&found, run, &sheet, &mut steps, &mut turning, out),
        Finished::NoRoute(none) => file_none(&none, run, out),
    }
}

/// Whether the front of a page is these bytes, and nobody has written the rest.
fn fronted(out: &[u8], bytes: &[u8]) -> bool {
    out.starts_with(bytes) && out.iter().skip(bytes.len()).all(|byte| *byte == 0xaa)
}

/// A step with one move so far, and so many samples.
fn with_a_move(section: usize, from: usize, to: usize, samples: i64) -> Step<MovesLabel> {
    Step {
        section,
        from,
        to,
        so_far: MovesLabel { moves: 1, samples },
    }
}

#[test]
fn a_route_in_moves(rt: HostRuntime) -> Result<(), Fail> {
    // section 0 shut, section 1 with one move, section 4 with two
    let moves = &[(1, 2), (10 + 1, 1), (22 + 7, 1), (58 + 7, 2)];
    let page = changed(PLAIN, moves);
    let mut sheet = sheet::<Moves>();
    let finished = finished(&page, &IN_TURN, &mut sheet)?;
    let Finished::Found(found) = finished else {
        return Err(Fail::new("no route"));
    };
    let mut steps = [with_a_move(9, 9, 9, 9); 3];
    let mut turning = steps;
    let mut out = [0xaa; 250];
    let filed = file(&found, 7, &sheet, &mut steps, &mut turning, &mut out);
    assert_eq!(rt; filed, Ok(247));
    let first = with_a_move(1, 0, 2, 2);
    let second = with_a_move(2, 2, 1, 3);
    assert_eq!(rt; steps, [first, second, with_a_move(3, 1, 4, 8)]);
    assert_eq!(rt; turning, [second, first, with_a_move(9, 9, 9, 9)]);
    // the filed cost, and each cost so far
    let shown = &[(187 + 9, 1), (207 + 6, 1), (220 + 6, 1), (233 + 6, 1)];
    assert!(rt; fronted(&out, &changed(changed(ANSWERED, moves), shown)));
    assert!(rt; front::<Moves>(&out, 247)?.retrace());
    Ok(())
}

/// Launcher and trap at station 0.
const ONE_PLACE: &[(usize, u8)] = &[(9, 0)];

/// Sections 3 and 5, which lead to the trap, shut.
const SHUT: &[(usize, u8)] = &[(46 + 1, 1), (70 + 1, 1)];

#[test]
fn what_is_filed(rt: HostRuntime) -> Result<(), Fail> {
    // an outcome 0, and no station taken
    let at_once = changed(
        changed(UNREACHED, ONE_PLACE),
        &[(187 + 5, 0), (187 + 19, 0)],
    );
    let unreached = changed(UNREACHED, SHUT);
    let pages: [(_, &[Side], u32, &[u8], bool); 3] = [
        (PLAIN, &IN_TURN, 7, &ANSWERED, true),
        (changed(PLAIN, ONE_PLACE), &[], 9, &at_once, true),
        (changed(PLAIN, SHUT), &[Backward], 9, &unreached, false),
    ];
    for (page, sides, run, bytes, retraces) in pages {
        let mut out = [0xaa; 250];
        let count = bytes.len();
        assert_eq!(rt; filed(&page, sides, run, &mut out), Ok(count));
        assert!(rt; fronted(&out, bytes));
        assert_eq!(rt; front::<Samples>(&out, count)?.retrace(), retraces);
    }
    Ok(())
}

#[test]
fn the_first_refusal_of_a_filing(rt: HostRuntime) -> Result<(), Fail> {
    let mut sheet = sheet::<Samples>();
    let found = found(&PLAIN, &IN_TURN, &mut sheet)?;
    let mut steps = [UNWRITTEN; 3];
    let mut turning = [UNWRITTEN; 3];
    let mut out = [0xaa; 247];
    // rows, places of both lists, bytes of the page
    let refused = [
        (4, 2, 1, 246, foreign(4)),
        (6, 2, 3, 246, short_list(2)),
        (6, 3, 1, 246, short_list(1)),
        (6, 3, 3, 246, short_page(247)),
        (6, 3, 3, 0, short_page(247)),
    ];
    for (rows, places, turns, bytes, fault) in refused {
        let answer = file(
            &found,
            7,
            &sheet[..rows],
            &mut steps[..places],
            &mut turning[..turns],
            &mut out[..bytes],
        );
        assert_eq!(rt; answer, Err(fault));
        assert_eq!(rt; (steps, turning), ([UNWRITTEN; 3], [UNWRITTEN; 3]));
        assert!(rt; fronted(&out, &[]));
    }
    assert_eq!(rt;
        file(&found, 7, &sheet, &mut steps, &mut turning, &mut out),
        Ok(247)
    );
    assert_eq!(rt; steps, [FIRST, SECOND, THIRD]);
    assert_eq!(rt; turning, [SECOND, FIRST, UNWRITTEN]);
    assert!(rt; fronted(&out, &ANSWERED));
    Ok(())
}

#[test]
fn too_short_a_page_for_no_route(rt: HostRuntime) -> Result<(), Fail> {
    let page = changed(PLAIN, SHUT);
    let mut sheet = sheet::<Samples>();
    let finished = finished(&page, &[Backward], &mut sheet)?;
    let Finished::NoRoute(none) = finished else {
        return Err(Fail::new("a route"));
    };
    let mut out = [0xaa; 208];
    assert_eq!(rt; file_none(&none, 9, &mut out[..207]), Err(short_page(208)));
    assert!(rt; fronted(&out, &[]));
    assert_eq!(rt; file_none(&none, 9, &mut out), Ok(208));
    let Some(answer) = front::<Samples>(&out, 208)?.answer() else {
        return Err(Fail::new("no answer"));
    };
    assert_eq!(rt; answer.outcome, Outcome::NoRoute);
    assert_eq!(rt;
        (answer.run, answer.cost, answer.steps, answer.taken),
        (9, 0, 0, 1)
    );
    Ok(())
}
