//! The open stations of least key, and the bounds that they give.
ghost use Rattle.std.specs.Prelude.{◌≡◌, Option};
ghost use Rattle.optimality.specs.Problems.{estimate};
ghost use Rattle.optimality.specs.Keys.{key, front_of, nearer, within, smaller, key_sum, twice};
ghost use Rattle.optimality.specs.Search.{least};

use crate::labels::mark_at;
use amounts::cost::Cost;
use faults::Side;
use networks::estimates::Estimates;
use optimality::sheet::{Ceiling, Front, Mark, Row};

/// A side's estimate at a station; zero beyond the last one.
pub(crate) fn estimate<C: Cost, E: Estimates<C>>(
    estimates: &E,
    side: Side,
    station: usize,
) -> C::Label
    ensures { result ≡ estimate C.Cost (E.Estimates.meaning estimates.now) side station }
{
    let Some(pair) = estimates.pair(station) else {
        return C::ZERO;
    };
    match side {
        Side::Forward => pair.forward,
        Side::Backward => pair.backward,
    }
}

/// Twice the label, and the side's own estimate less the other one.
fn key<C: Cost, E: Estimates<C>>(
    estimates: &E,
    side: Side,
    station: usize,
    label: C::Label,
) -> C::Label
    ensures { result ≡ key C.Cost (E.Estimates.meaning estimates.now) side station label }
{
    let own = estimate::<C, E>(estimates, side, station);
    let other = estimate::<C, E>(estimates, side.opposite(), station);
    C::difference(C::sum(C::sum(label, label), own), other)
}

/// The station with its key, where a side has it open.
fn front_of<C: Cost, E: Estimates<C>>(
    estimates: &E,
    side: Side,
    station: usize,
    mark: Option<Mark<C::Label>>,
) -> Option<Front<C::Label>>
    ensures { result ≡ front_of C.Cost (E.Estimates.meaning estimates.now) side station mark }
{
    let mark = mark?;
    if mark.closed {
        return None;
    }
    Some(Front {
        station,
        key: key::<C, E>(estimates, side, station, mark.label),
        label: mark.label,
        arrival: mark.arrival,
    })
}

/// The one of smaller key, and the first where the keys are equal.
fn nearer<C: Cost>(
    first: Option<Front<C::Label>>,
    second: Option<Front<C::Label>>,
) -> Option<Front<C::Label>>
    ensures { result ≡ nearer C.Cost first second }
{
    let Some(a) = first else {
        return second;
    };
    let Some(b) = second else {
        return Some(a);
    };
    if C::at_most(a.key, b.key) {
        Some(a)
    } else {
        Some(b)
    }
}

/// A side's open station of least key, and of lowest number among those, of so many.
pub(crate) fn least<C: Cost, E: Estimates<C>>(
    rows: &[Row<C>],
    estimates: &E,
    side: Side,
    stations: usize,
) -> Option<Front<C::Label>>
    ensures { result ≡ least C.Cost (E.Estimates.meaning estimates.now) rows.now side stations }
{
    let mut least = None;
    for station in 0..stations {
        let mark = mark_at::<C>(rows, side, station);
        least = nearer::<C>(least, front_of::<C, E>(estimates, side, station, mark));
    }
    least
}

/// Whether one bound is at most another; what is absent counts as above every amount.
pub(crate) fn within<C: Cost>(x: Option<C::Label>, y: Option<C::Label>) -> bool
    ensures { result ≡ within C.Cost x y }
{
    let Some(b) = y else {
        return true;
    };
    let Some(a) = x else {
        return false;
    };
    C::at_most(a, b)
}

/// The smaller of two bounds.
pub(crate) fn smaller<C: Cost>(x: Option<C::Label>, y: Option<C::Label>) -> Option<C::Label>
    ensures { result ≡ smaller C.Cost x y }
{
    if within::<C>(x, y) { x } else { y }
}

/// The sum of the least keys; absent where a side has no open station.
pub(crate) fn key_sum<C: Cost>(
    forward: Option<Front<C::Label>>,
    backward: Option<Front<C::Label>>,
) -> Option<C::Label>
    ensures { result ≡ key_sum C.Cost forward backward }
{
    Some(C::sum(forward?.key, backward?.key))
}

/// Twice the ceiling.
pub(crate) fn twice<C: Cost>(ceiling: Ceiling<C::Label>) -> Option<C::Label>
    ensures { result ≡ twice C.Cost ceiling }
{
    match ceiling {
        Ceiling::Met { amount, .. } => Some(C::sum(amount, amount)),
        Ceiling::Absent => None,
    }
}
