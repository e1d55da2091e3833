//! The arrivals on a sheet, followed from a station back to where their side started.
ghost use Rattle.std.specs.Prelude.{◌≡◌, ◌+◌, ◌<◌, length, IfSome, option_map};
ghost use Rattle.std.specs.List.{slice_get};
ghost use Rattle.optimality.specs.Problems.{start};
ghost use Rattle.filing.specs.Arrivals.{arrival_at, before, followed, line};
ghost use Rattle.filing.specs.Halves.{halves_of};

use amounts::cost::Cost;
use faults::Side;
use networks::network::Network;
use optimality::sheet::Row;

/// The section by which a side came to the station.
pub(crate) fn arrival_at<C: Cost>(own: &[Row<C>], side: Side, station: usize) -> Option<usize>
    ensures { result ≡ arrival_at own.now side station }
{
    own.get(station)?.mark(side)?.arrival
}

/// Where a side starts.
pub(crate) fn start<C: Cost, N: Network<C>>(net: &N, side: Side) -> usize
    ensures { result ≡ start (N.Network.meaning net.now) side }
{
    match side {
        Side::Forward => net.launcher(),
        Side::Backward => net.trap(),
    }
}

/// The station from which a side came to another, if the numbered section is there, open, and leads to that one.
pub(crate) fn before<C: Cost, N: Network<C>>(
    net: &N,
    side: Side,
    station: usize,
    number: usize,
) -> Option<usize>
    ensures { result ≡ before side station (slice_get (N.Network.meaning net.now).sections number) }
{
    let section = net.section(number)?;
    (!section.shut && section.head(side) == station).then_some(section.tail(side))
}

/// How many sections lead from a station back to the side's start; absent where they do not in fewer steps than the
/// limit.
pub(crate) fn followed<C: Cost, N: Network<C>>(
    own: &[Row<C>],
    net: &N,
    side: Side,
    station: usize,
    limit: usize,
) -> Option<usize>
    ensures count { result ≡ option_map length (followed (N.Network.meaning net.now) own.now side limit station) }
    ensures few { IfSome result (λ count. count < limit) }
{
    let mut at = station;
    for steps in 0..limit {
        let Some(number) = arrival_at::<C>(own, side, at) else {
            return (at == start::<C, N>(net, side)).then_some(steps);
        };
        at = before::<C, N>(net, side, at, number)?;
    }
    None
}

/// How many sections a route has behind its meeting station, and how many ahead of it.
#[derive(Clone, Copy)]
pub(crate) struct Halves {
    pub(crate) behind: usize,
    pub(crate) ahead: usize,
}

/// The two halves of the route through a station; absent where they are none of fewer steps than stations.
pub(crate) fn follow_both<C: Cost, N: Network<C>>(
    own: &[Row<C>],
    net: &N,
    meeting: usize,
) -> Option<Halves>
    ensures exact { result ≡ option_map halves_of (line (N.Network.meaning net.now) own.now meeting) }
    ensures few { IfSome result (λ h. h.behind + h.ahead < 4096) }
{
    let stations = net.stations();
    let behind = followed::<C, N>(own, net, Side::Forward, meeting, stations)?;
    let ahead = followed::<C, N>(own, net, Side::Backward, meeting, stations - behind)?;
    Some(Halves { behind, ahead })
}
