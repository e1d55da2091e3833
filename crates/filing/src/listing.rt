//! Listing the steps of a route.
ghost use Rattle.std.specs.Prelude.{◌≡◌, ◌+◌, length, map, reverse, Some, Ok, option_map};
ghost use Rattle.std.specs.List.{slice_get};
ghost use Rattle.networks.specs.Nets.{Net};
ghost use Rattle.networks.specs.Routes.{worth_in};
ghost use Rattle.filing.specs.Arrivals.{followed, line};
ghost use Rattle.filing.specs.Halves.{halves_of};
ghost use Rattle.filing.specs.Listing.{step_at, listed};
ghost use Rattle.filing.specs.Costs.{bare_steps, costed};

use crate::follow::{Halves, arrival_at, before};
use amounts::cost::Cost;
use contents::answer::Step;
use faults::Side;
use networks::network::Network;
use optimality::sheet::Row;

/// The numbered section as a step, before its cost is known.
fn bare_step<C: Cost, N: Network<C>>(net: &N, number: usize) -> Step<C::Label>
    ensures { result ≡ step_at C.Cost (N.Network.meaning net.now) number C.Cost.ops.zero }
{
    let (from, to) = net
        .section(number)
        .map_or((0, 0), |section| (section.from, section.to));
    Step {
        section: number,
        from,
        to,
        so_far: C::ZERO,
    }
}

/// Lists the sections from a station back to the side's start, in the order followed, as many as the list has places.
pub(crate) fn list_followed<C: Cost, N: Network<C>>(
    list: &mut [Step<C::Label>],
    own: &[Row<C>],
    net: &N,
    side: Side,
    station: usize,
)
    requires { option_map length (followed (N.Network.meaning net.now) own.now side (length list.old + 1) station) ≡ Some (length list.old) }
    ensures { Some list.new ≡ option_map (bare_steps C.Cost (N.Network.meaning net.now)) (followed (N.Network.meaning net.now) own.now side (length list.old + 1) station) }
{
    let mut at = station;
    for place in 0..list.len() {
        let Some(number) = arrival_at::<C>(own, side, at) else {
            break;
        };
        let Some(next) = before::<C, N>(net, side, at, number) else {
            break;
        };
        list[place] = bare_step::<C, N>(net, number);
        at = next;
    }
}

/// Copies steps, the last one first.
pub(crate) fn turn<L: Copy>(from: &[Step<L>], to: &mut [Step<L>])
    requires { length from.now ≡ length to.old }
    ensures { to.new ≡ reverse from.now }
{
    to.copy_from_slice(from);
    to.reverse();
}

/// What the numbered section is worth.
fn worth_in<C: Cost, N: Network<C>>(net: &N, number: usize) -> C::Label
    ensures { result ≡ worth_in C.Cost.ops C.Cost.worth (slice_get (N.Network.meaning net.now).sections number) }
{
    match net.section(number) {
        Some(section) => C::worth(section.amount),
        None => C::ZERO,
    }
}

/// Gives each step the cost up to its end.
pub(crate) fn add_costs<C: Cost, N: Network<C>>(steps: &mut [Step<C::Label>], net: &N)
    ensures { steps.new ≡ costed C.Cost (N.Network.meaning net.now) C.Cost.ops.zero steps.old }
{
    let mut cost = C::ZERO;
    for place in 0..steps.len() {
        let step = steps[place];
        cost = C::sum(cost, worth_in::<C, N>(net, step.section));
        steps[place] = Step {
            so_far: cost,
            ..step
        };
    }
}
