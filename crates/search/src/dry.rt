//! Whether a row holds every label that a step would write, found out before anything is written.
ghost use Rattle.std.specs.Prelude.{◌≡◌, ◌<◌, ◌≤◌, length, take, Some, true, is_some};
ghost use Rattle.std.specs.List.{slice_get};
ghost use Rattle.networks.specs.Nets.{InRange, starters};
ghost use Rattle.optimality.specs.Search.{mark_at};
ghost use Rattle.search.specs.Replay.{mark_by, mark_after, large_at};

use crate::labels::{fits_row, improves, mark_at};
use amounts::cost::Cost;
use faults::Side;
use networks::network::Network;
use networks::section::Section;
use optimality::sheet::{Mark, Row};

/// The mark at the station `to`, after section `number` was gone along.
fn mark_by<C: Cost, N: Network<C>>(
    net: &N,
    side: Side,
    label: C::Label,
    to: usize,
    number: usize,
    mark: Option<Mark<C::Label>>,
) -> Option<Mark<C::Label>>
    ensures { result ≡ mark_by C.Cost side label to number (slice_get (N.Network.meaning net.now).sections number) mark }
{
    let Some(section) = net.section(number) else {
        return mark;
    };
    let candidate = C::sum(label, C::worth(section.amount));
    if section.shut || section.head(side) != to || !improves::<C>(candidate, mark) {
        return mark;
    }
    Some(Mark {
        label: candidate,
        arrival: Some(number),
        closed: false,
    })
}

/// The mark at the station `to`, after so many sections of the station that is taken.
#[tactic(auto, using(crate::proofs::Following::mark_next, crate::proofs::Following::mark_last))]
fn mark_after<C: Cost, N: Network<C>>(
    net: &N,
    side: Side,
    station: usize,
    label: C::Label,
    to: usize,
    count: usize,
    first: Option<Mark<C::Label>>,
) -> Option<Mark<C::Label>>
    ensures { result ≡ mark_after C.Cost side label (N.Network.meaning net.now) to (take count (starters side (N.Network.meaning net.now) station)) first }
{
    let mut mark = first;
    for k in 0..count {
        let Some(number) = net.touching(side, station, k) else {
            break;
        };
        mark = mark_by::<C, N>(net, side, label, to, number, mark);
    }
    mark
}

/// Whether section `number`, the k-th of the station that is taken, would get a label that a row does not hold.
pub(crate) fn too_large<C: Cost, N: Network<C>>(
    rows: &[Row<C>],
    net: &N,
    side: Side,
    station: usize,
    label: C::Label,
    k: usize,
    number: usize,
) -> bool
    ensures { result ≡ large_at C.Cost side label (N.Network.meaning net.now) station rows.now k (slice_get (N.Network.meaning net.now).sections number) }
{
    let Some(section) = net.section(number) else {
        return false;
    };
    let candidate = C::sum(label, C::worth(section.amount));
    if section.shut || fits_row::<C>(candidate) {
        return false;
    }
    let to = section.head(side);
    if to == station {
        return false;
    }
    let first = mark_at::<C>(rows, side, to);
    let mark = mark_after::<C, N>(net, side, station, label, to, k, first);
    improves::<C>(candidate, mark)
}
