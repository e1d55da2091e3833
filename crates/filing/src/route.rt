//! Route: the steps of a found route.
ghost use Rattle.std.specs.Prelude.{◌≡◌, ◌+◌, ◌≤◌, min, length, IfOk, Ok, List};
ghost use Rattle.networks.specs.Given.{GivenInRange};
ghost use Rattle.networks.specs.Nets.{InRange};
ghost use Rattle.search.specs.Claims.{Call};
ghost use Rattle.filing.specs.Halves.{halved};
ghost use Rattle.filing.specs.Listing.{lined, route_of};
ghost use Rattle.filing.specs.Claims.{ListedBy, FoundBy, RouteStands};

use crate::follow::{Halves, follow_both};
use crate::listing::{add_costs, list_followed, turn};
use amounts::cost::Cost;
use amounts::forms::PageCost;
use contents::answer::Step;
use faults::{Fault, Layer, Refusal, Side};
use networks::estimates::Estimates;
use networks::network::Network;
use optimality::sheet::Row;
use search::running::Found;

/// How long the halves of the route are, where either list has so many places; else the fault: a sheet that is not the
/// search's, or a list that is too short.
pub(crate) fn plan<C: Cost, N: Network<C>>(
    net: &N,
    meeting: usize,
    sheet: &[Row<C>],
    room: usize,
) -> Result<Halves, Fault>
    ensures exact { result ≡ halved (lined (N.Network.meaning net.now) meeting sheet.now room) }
    ensures few { IfOk result (λ h. h.behind + h.ahead ≤ room) }
{
    let foreign = Layer::Filing.fault(Refusal::ForeignSheet { rows: sheet.len() });
    let own = sheet.get(..net.stations()).ok_or(foreign)?;
    let halves = follow_both::<C, N>(own, net, meeting).ok_or(foreign)?;
    if room < halves.behind + halves.ahead {
        return Err(Layer::Filing.fault(Refusal::ListTooShort { places: room }));
    }
    Ok(halves)
}

/// Lists the route: its steps in the one list, and in the other the ones behind the meeting station, turned.
pub(crate) fn list<C: Cost, N: Network<C>>(
    net: &N,
    meeting: usize,
    sheet: &[Row<C>],
    halves: Halves,
    steps: &mut [Step<C::Label>],
    turning: &mut [Step<C::Label>],
)
    requires { Ok halves ≡ halved (lined (N.Network.meaning net.now) meeting sheet.now (min (length steps.old) (length turning.old))) }
    ensures { record { answer = Ok (halves.behind + halves.ahead); steps = steps.new; turning = turning.new } ≡ route_of C.Cost (N.Network.meaning net.now) steps.old turning.old meeting sheet.now }
{
    // Never absent: the plan has found a row for each station.
    let Some(own) = sheet.get(..net.stations()) else {
        return;
    };
    let (route, _) = steps.split_at_mut(halves.behind + halves.ahead);
    let (turned, _) = turning.split_at_mut(halves.behind);
    list_followed::<C, N>(turned, own, net, Side::Forward, meeting);
    let (front, back) = route.split_at_mut(halves.behind);
    turn(turned, front);
    list_followed::<C, N>(back, own, net, Side::Backward, meeting);
    add_costs::<C, N>(route, net);
    let (front, _) = route.split_at_mut(halves.behind);
    turn(front, turned);
}

/// Asks network and estimates for what they promise.
pub(crate) fn promised<C: Cost, N: Network<C>, E: Estimates<C>>(net: &N, estimates: &E)
    ensures range { InRange C.Cost.section_range (N.Network.meaning net.now) }
    ensures given { GivenInRange C.Cost.estimate_range (E.Estimates.meaning estimates.now) }
{
    net.stations();
    estimates.count();
}

fn list_route<C: Cost, N: Network<C>, E>(
    found: &Found<C, N, E>,
    sheet: &[Row<C>],
    steps: &mut [Step<C::Label>],
    turning: &mut [Step<C::Label>],
) -> Result<usize, Fault>
    ensures { record { answer = result; steps = steps.new; turning = turning.new } ≡ route_of C.Cost (N.Network.meaning found.now.net) steps.old turning.old found.now.meeting sheet.now }
{
    let net = found.network();
    let meeting = found.meeting();
    let halves = plan::<C, N>(net, meeting, sheet, steps.len().min(turning.len()))?;
    list::<C, N>(net, meeting, sheet, halves, steps, turning);
    Ok(halves.behind + halves.ahead)
}

/// Lists the steps of a found route, each with its section, its ends and the cost up to its end, and answers how many.
/// The turning list starts with those behind the station where the two halves meet, in the order followed from there.
/// Turned down, both lists stand; else only the named places are written.
pub fn route<C: PageCost, N: Network<C>, E: Estimates<C>>(
    found: &Found<C, N, E>,
    sheet: &[Row<C>],
    steps: &mut [Step<C::Label>],
    turning: &mut [Step<C::Label>],
) -> Result<usize, Fault>
    // The answer and both lists, on every input.
    ensures exact { record { answer = result; steps = steps.new; turning = turning.new } ≡ route_of C.Cost (N.Network.meaning found.now.net) steps.old turning.old found.now.meeting sheet.now }
    // On every sheet: what is listed is a route, and every cost so far is right.
    ensures listed { ListedBy C.Cost C.forms (N.Network.meaning found.now.net) found.now.meeting result steps.new turning.new }
    // Where the search had its sheet to itself, only a list shorter than the route is turned down, and no route costs less.
    ensures stands { (calls : List Call) → FoundBy C.Cost N.Network E.Estimates calls found.now sheet.now → RouteStands C.Cost N.Network E.Estimates found.now sheet.now (min (length steps.old) (length turning.old)) result steps.new }
{
    promised::<C, N, E>(found.network(), found.estimates());
    list_route::<C, N, E>(found, sheet, steps, turning)
}
