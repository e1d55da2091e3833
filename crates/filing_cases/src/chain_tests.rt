//! Chains of steps.
use crate::drawn::{FIRST, SECOND, THIRD, UNWRITTEN};
use faults::{Layer, Refusal};
use filing::chain::{Route, chain};

#[test]
fn steps_that_join(rt: HostRuntime) {
    let lists = [
        [].as_slice(),
        &[UNWRITTEN],
        &[FIRST, SECOND, THIRD],
        // nobody asks for a launcher, a trap, a section or a cost
        &[SECOND, THIRD],
        &[UNWRITTEN, UNWRITTEN],
    ];
    let mut route = Route::empty();
    assert_eq!(rt; route.steps(), [].as_slice());
    for steps in lists {
        assert_eq!(rt; chain(steps, &mut route), Ok(()));
        assert_eq!(rt; route.steps(), steps);
    }
}

#[test]
fn the_first_step_that_does_not_join(rt: HostRuntime) {
    let lists = [
        ([FIRST, THIRD].as_slice(), 1),
        (&[SECOND, FIRST], 1),
        (&[FIRST, SECOND, FIRST, THIRD], 2),
        (&[FIRST, SECOND, THIRD, UNWRITTEN], 3),
    ];
    let whole = [FIRST, SECOND, THIRD];
    let mut route = Route::empty();
    assert_eq!(rt; chain(&whole, &mut route), Ok(()));
    for (steps, step) in lists {
        let apart = Layer::Filing.fault(Refusal::NotJoined { step });
        assert_eq!(rt; chain(steps, &mut route), Err(apart), "at {step}");
        assert_eq!(rt; (apart.number(), apart.place()), (16, step));
        assert_eq!(rt; route.steps(), whole.as_slice());
    }
}
