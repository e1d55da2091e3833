//! Whether a search can be opened, and the first rows.
ghost use Rattle.std.specs.Prelude.{◌≡◌, length, map, Option, cond, ◌==◌};
ghost use Rattle.optimality.specs.declared.sheet.Ceiling.TheVariants.{Absent, Met};
ghost use Rattle.std.specs.List.{range_with_len};
ghost use Rattle.optimality.specs.Keys.{breaks, first_mark};
ghost use Rattle.optimality.specs.Search.{first_row};
ghost use Rattle.search.specs.Calls.{posed, first_broken, unfit};

use crate::fronts::estimate;
use amounts::cost::Cost;
use faults::{Refusal, Side};
use networks::estimates::Estimates;
use networks::network::Network;
use networks::section::Section;
use optimality::sheet::{Ceiling, Mark, Row};

/// Whether a side's estimate falls by more than its amount along the section, which is open.
fn breaks<C: Cost, E: Estimates<C>>(
    estimates: &E,
    side: Side,
    section: &Section<C::Section>,
) -> bool
    ensures { result ≡ breaks C.Cost (E.Estimates.meaning estimates.now) side section.now }
{
    let near = estimate::<C, E>(estimates, side, section.tail(side));
    let far = estimate::<C, E>(estimates, side, section.head(side));
    !section.shut && !C::at_most(C::difference(near, far), C::worth(section.amount))
}

/// The first section that breaks the estimates, and the side, forward first.
#[tactic(auto, using(crate::proofs::Opened::broken_none))]
fn first_broken<C: Cost, N: Network<C>, E: Estimates<C>>(net: &N, estimates: &E) -> Option<Refusal>
    ensures { result ≡ first_broken (posed C.Cost N.Network E.Estimates net.now estimates.now) 0 (N.Network.meaning net.now).sections }
{
    for number in 0..net.sections() {
        let Some(section) = net.section(number) else {
            break;
        };
        if breaks::<C, E>(estimates, Side::Forward, &section) {
            return Some(Refusal::Inconsistent {
                section: number,
                side: Side::Forward,
            });
        }
        if breaks::<C, E>(estimates, Side::Backward, &section) {
            return Some(Refusal::Inconsistent {
                section: number,
                side: Side::Backward,
            });
        }
    }
    None
}

/// Why no search can be opened over so many rows.
pub(crate) fn unfit<C: Cost, N: Network<C>, E: Estimates<C>>(
    net: &N,
    estimates: &E,
    rows: usize,
) -> Option<Refusal>
    ensures { result ≡ unfit (posed C.Cost N.Network E.Estimates net.now estimates.now) rows }
{
    let stations = net.stations();
    if rows < stations {
        return Some(Refusal::TooFewRows { rows });
    }
    let count = estimates.count();
    if count != stations {
        return Some(Refusal::EstimateCount { count });
    }
    first_broken::<C, N, E>(net, estimates)
}

/// A side's first mark at a station.
fn first_mark<C: Cost>(starts: bool) -> Option<Mark<C::Label>>
    ensures { result ≡ first_mark C.Cost starts }
{
    starts.then_some(Mark {
        label: C::ZERO,
        arrival: None,
        closed: false,
    })
}

/// A station's first row: the launcher is open forward, and the trap backward.
fn first_row<C: Cost, N: Network<C>>(net: &N, station: usize) -> Row<C>
    ensures { result ≡ first_row C.Cost (N.Network.meaning net.now) station }
{
    Row {
        forward: first_mark::<C>(station == net.launcher()),
        backward: first_mark::<C>(station == net.trap()),
    }
}

/// Writes the first rows.
#[tactic(auto, using(crate::proofs::Opened::next_row))]
pub(crate) fn write_first<C: Cost, N: Network<C>>(own: &mut [Row<C>], net: &N)
    ensures { own.new ≡ map (first_row C.Cost (N.Network.meaning net.now)) (range_with_len 0 (length own.old)) }
{
    for station in 0..own.len() {
        own[station] = first_row::<C, N>(net, station);
    }
}

/// The first ceiling: zero at the launcher, where launcher and trap are one.
pub(crate) fn first_ceiling<C: Cost>(launcher: usize, trap: usize) -> Ceiling<C::Label>
    ensures { result ≡ cond (launcher == trap) (Met C.Cost.ops.zero launcher) Absent }
{
    if launcher != trap {
        return Ceiling::Absent;
    }
    Ceiling::Met {
        amount: C::ZERO,
        station: launcher,
    }
}
