//! Routes as they are listed.
use crate::drawn::{FIRST, IN_TURN, SECOND, THIRD, UNWRITTEN, foreign, found, sheet, short_list};
use amounts::kinds::Samples;
use faults::Side::{Backward, Forward};
use filing::route::route;
use page_cases::worked::PLAIN;
use std::test::Fail;

#[test]
fn the_route_of_least_cost(rt: HostRuntime) -> Result<(), Fail> {
    // from both ends the halves meet at station 1, from the launcher alone at the trap, from the trap alone at the launcher
    let searches = [
        (IN_TURN.as_slice(), [SECOND, FIRST, UNWRITTEN, UNWRITTEN]),
        (&[Forward; 3], [THIRD, SECOND, FIRST, UNWRITTEN]),
        (&[Backward; 4], [UNWRITTEN; 4]),
    ];
    for (sides, turned) in searches {
        let mut sheet = sheet::<Samples>();
        let found = found(&PLAIN, sides, &mut sheet)?;
        let mut steps = [UNWRITTEN; 5];
        let mut turning = [UNWRITTEN; 4];
        assert_eq!(rt; route(&found, &sheet, &mut steps, &mut turning), Ok(3));
        let whole = [FIRST, SECOND, THIRD, UNWRITTEN, UNWRITTEN];
        assert_eq!(rt; steps, whole);
        assert_eq!(rt; turning, turned);
    }
    Ok(())
}

#[test]
fn lists_that_are_too_short(rt: HostRuntime) -> Result<(), Fail> {
    let mut sheet = sheet::<Samples>();
    let found = found(&PLAIN, &[Backward; 4], &mut sheet)?;
    let mut steps = [UNWRITTEN; 3];
    let mut turning = [UNWRITTEN; 3];
    // rows, places of both lists
    let refused = [
        (4, 3, 3, foreign(4)),
        (4, 0, 0, foreign(4)),
        (6, 2, 3, short_list(2)),
        (6, 3, 2, short_list(2)),
        (6, 2, 1, short_list(1)),
        (6, 0, 1, short_list(0)),
    ];
    for (rows, places, turns, fault) in refused {
        let answer = route(
            &found,
            &sheet[..rows],
            &mut steps[..places],
            &mut turning[..turns],
        );
        assert_eq!(rt; answer, Err(fault));
        assert_eq!(rt; (steps, turning), ([UNWRITTEN; 3], [UNWRITTEN; 3]));
    }
    assert_eq!(rt; route(&found, &sheet, &mut steps, &mut turning), Ok(3));
    assert_eq!(rt; steps, [FIRST, SECOND, THIRD]);
    Ok(())
}
