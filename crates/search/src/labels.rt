//! What a search computes of labels.
ghost use Rattle.std.specs.Prelude.{◌≡◌};
ghost use Rattle.optimality.specs.Keys.{fits_row, seen, lowered, met, improves};
ghost use Rattle.optimality.specs.Search.{mark_at};

use amounts::cost::Cost;
use faults::Side;
use optimality::sheet::{Ceiling, Mark, Row};

/// Whether a row holds the label.
pub(crate) fn fits_row<C: Cost>(label: C::Label) -> bool
    ensures { result ≡ fits_row C.Cost label }
{
    C::size(label) < 1 << 44
}

/// What a side reads at a station.
pub(crate) fn mark_at<C: Cost>(
    rows: &[Row<C>],
    side: Side,
    station: usize,
) -> Option<Mark<C::Label>>
    ensures { result ≡ mark_at C.Cost rows.now side station }
{
    let mark = rows.get(station)?.mark(side)?;
    let label = if fits_row::<C>(mark.label) {
        mark.label
    } else {
        C::ZERO
    };
    Some(Mark { label, ..mark })
}

/// The ceiling, once a route of the cost meets at the station.
fn lowered<C: Cost>(cost: C::Label, station: usize, ceiling: Ceiling<C::Label>) -> Ceiling<C::Label>
    ensures { result ≡ lowered C.Cost cost station ceiling }
{
    let best = Ceiling::Met {
        amount: cost,
        station,
    };
    let Ceiling::Met { amount, station } = ceiling else {
        return best;
    };
    if C::at_most(amount, cost) {
        Ceiling::Met { amount, station }
    } else {
        best
    }
}

/// The ceiling, once the station got a label on one side, where the other side has the mark.
pub(crate) fn met<C: Cost>(
    label: C::Label,
    station: usize,
    there: Option<Mark<C::Label>>,
    ceiling: Ceiling<C::Label>,
) -> Ceiling<C::Label>
    ensures { result ≡ met C.Cost label station there ceiling }
{
    match there {
        Some(mark) => lowered::<C>(C::sum(label, mark.label), station, ceiling),
        None => ceiling,
    }
}

/// Whether a candidate becomes the label where a side has the mark.
pub(crate) fn improves<C: Cost>(candidate: C::Label, mark: Option<Mark<C::Label>>) -> bool
    ensures { result ≡ improves C.Cost candidate mark }
{
    match mark {
        Some(mark) => !mark.closed && !C::at_most(mark.label, candidate),
        None => true,
    }
}
