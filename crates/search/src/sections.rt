//! A taken station's sections gone through.
ghost use Rattle.std.specs.Prelude.{◌≡◌, ◌<◌, ◌≤◌, length, Some, true, is_some};
ghost use Rattle.std.specs.List.{slice_get};
ghost use Rattle.networks.specs.Nets.{InRange, starters};
ghost use Rattle.optimality.specs.Search.{reach, along, spread};
ghost use Rattle.optimality.specs.Sheets.{put};

use crate::labels::{fits_row, improves, mark_at, met};
use amounts::cost::Cost;
use faults::Side;
use networks::network::Network;
use optimality::sheet::{Ceiling, Mark, Row};

/// Writes a side's mark at a station.
pub(crate) fn put<C: Cost>(rows: &mut [Row<C>], side: Side, station: usize, mark: Mark<C::Label>)
    requires { station < length rows.old }
    ensures { rows.new ≡ put rows.old side station mark }
{
    rows[station].write(side, Some(mark));
}

/// The candidate, by section `number`, at the station `to`; answers the ceiling after it.
fn reach<C: Cost>(
    rows: &mut [Row<C>],
    side: Side,
    number: usize,
    to: usize,
    candidate: C::Label,
    ceiling: Ceiling<C::Label>,
) -> Ceiling<C::Label>
    requires within { to < length rows.old }
    requires fits { is_some (reach C.Cost side number to candidate (record { rows = rows.old; ceiling = ceiling })) ≡ true }
    ensures length { length rows.new ≡ length rows.old }
    ensures exact { Some (record { rows = rows.new; ceiling = result }) ≡ reach C.Cost side number to candidate (record { rows = rows.old; ceiling = ceiling }) }
{
    if !improves::<C>(candidate, mark_at::<C>(rows, side, to)) {
        return ceiling;
    }
    let there = mark_at::<C>(rows, side.opposite(), to);
    let mark = Mark {
        label: candidate,
        arrival: Some(number),
        closed: false,
    };
    put::<C>(rows, side, to, mark);
    met::<C>(candidate, to, there, ceiling)
}

/// Section `number`, from a station with the label; answers the ceiling after it.
fn along<C: Cost, N: Network<C>>(
    rows: &mut [Row<C>],
    net: &N,
    side: Side,
    label: C::Label,
    number: usize,
    ceiling: Ceiling<C::Label>,
) -> Ceiling<C::Label>
    requires range { InRange C.Cost.section_range (N.Network.meaning net.now) }
    requires long { (N.Network.meaning net.now).stations ≤ length rows.old }
    requires fits { is_some (along C.Cost side label number (slice_get (N.Network.meaning net.now).sections number) (record { rows = rows.old; ceiling = ceiling })) ≡ true }
    ensures length { length rows.new ≡ length rows.old }
    ensures exact { Some (record { rows = rows.new; ceiling = result }) ≡ along C.Cost side label number (slice_get (N.Network.meaning net.now).sections number) (record { rows = rows.old; ceiling = ceiling }) }
{
    let Some(section) = net.section(number) else {
        return ceiling;
    };
    if section.shut {
        return ceiling;
    }
    let candidate = C::sum(label, C::worth(section.amount));
    reach::<C>(rows, side, number, section.head(side), candidate, ceiling)
}

/// Every section of a station with the label, in rising number; answers the ceiling after them.
#[tactic(auto, using(crate::proofs::Spreads::next_fits, crate::proofs::Spreads::next_left, crate::proofs::Spreads::over_all, crate::proofs::Spreads::over_none))]
pub(crate) fn spread<C: Cost, N: Network<C>>(
    rows: &mut [Row<C>],
    net: &N,
    side: Side,
    station: usize,
    label: C::Label,
    ceiling: Ceiling<C::Label>,
) -> Ceiling<C::Label>
    requires range { InRange C.Cost.section_range (N.Network.meaning net.now) }
    requires long { (N.Network.meaning net.now).stations ≤ length rows.old }
    requires fits { is_some (spread C.Cost (N.Network.meaning net.now) side label (starters side (N.Network.meaning net.now) station) (record { rows = rows.old; ceiling = ceiling })) ≡ true }
    ensures length { length rows.new ≡ length rows.old }
    ensures exact { Some (record { rows = rows.new; ceiling = result }) ≡ spread C.Cost (N.Network.meaning net.now) side label (starters side (N.Network.meaning net.now) station) (record { rows = rows.old; ceiling = ceiling }) }
{
    let mut ceiling = ceiling;
    for k in 0..net.sections() {
        let Some(number) = net.touching(side, station, k) else {
            break;
        };
        ceiling = along::<C, N>(rows, net, side, label, number, ceiling);
    }
    ceiling
}
