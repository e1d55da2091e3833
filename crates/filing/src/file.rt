//! File: a page with network, estimates and answer.
ghost use Rattle.std.specs.Prelude.{◌≡◌, min, length, Some, List};
ghost use Rattle.networks.specs.Nets.{InRange};
ghost use Rattle.search.specs.Claims.{Call};
ghost use Rattle.filing.specs.Listing.{last_cost};
ghost use Rattle.writing.specs.Places.{answer_place};
ghost use Rattle.filing.specs.Filing.{file_of, file_none_of};
ghost use Rattle.filing.specs.Holding.{held};
ghost use Rattle.filing.specs.Claims.{FoundBy, NoneBy, FiledBy, FileStands, NoneFiledBy, FileNoneStands};

use crate::route::{list, plan, promised};
use amounts::cost::Cost;
use amounts::forms::PageCost;
use contents::answer::{Outcome, Step, WholeAnswer};
use faults::{Fault, Layer, Refusal};
use networks::estimates::Estimates;
use networks::network::Network;
use optimality::sheet::Row;
use search::running::{Found, NoRoute};
use writing::write::{answer_place, write};

/// The last cost so far, or zero.
fn last_cost<C: Cost>(steps: &[Step<C::Label>]) -> C::Label
    ensures { result ≡ last_cost C.Cost.ops.zero steps.now }
{
    let Some(step) = steps.last() else {
        return C::ZERO;
    };
    step.so_far
}

/// Whether a page of so many bytes holds an answer with so many steps, each of which it can hold; else the fault.
fn check_room<C: Cost, N: Network<C>, E: Estimates<C>>(
    room: usize,
    found: &Found<C, N, E>,
    steps: usize,
) -> Result<(), Fault>
    ensures exact { result ≡ held (N.Network.meaning found.now.net).stations found.now.taken (answer_place (N.Network.meaning found.now.net) (E.Estimates.meaning found.now.estimates) room (Some steps)) }
    ensures range { InRange C.Cost.section_range (N.Network.meaning found.now.net) }
{
    let net = found.network();
    let stations = net.stations();
    let offset = answer_place::<C, N, E>(room, net, found.estimates(), Some(steps))?;
    if found.taken() >= stations {
        return Err(Layer::Page.fault(Refusal::FieldOutOfRange { offset }));
    }
    Ok(())
}

fn file_route<C: PageCost, N: Network<C>, E: Estimates<C>>(
    found: &Found<C, N, E>,
    run: u32,
    sheet: &[Row<C>],
    steps: &mut [Step<C::Label>],
    turning: &mut [Step<C::Label>],
    page: &mut [u8],
) -> Result<usize, Fault>
    ensures { record { answer = result; steps = steps.new; turning = turning.new; page = page.new } ≡ file_of C.Cost C.forms N.Network E.Estimates found.now run sheet.now steps.old turning.old page.old }
{
    let net = found.network();
    let meeting = found.meeting();
    let halves = plan::<C, N>(net, meeting, sheet, steps.len().min(turning.len()))?;
    let count = halves.behind + halves.ahead;
    check_room::<C, N, E>(page.len(), found, count)?;
    list::<C, N>(net, meeting, sheet, halves, steps, turning);
    let (steps, _) = steps.split_at_mut(count);
    let answer = WholeAnswer {
        run,
        outcome: Outcome::Found,
        cost: last_cost::<C>(steps),
        taken: found.taken(),
        steps,
    };
    write::<C, N, E>(page, net, found.estimates(), Some(answer))
}

/// Files a found route under a run number: lists it as Route does, writes network, estimates and answer over the front of
/// the page, and answers how many bytes. Turned down, lists and page stand.
pub fn file<C: PageCost, N: Network<C>, E: Estimates<C>>(
    found: &Found<C, N, E>,
    run: u32,
    sheet: &[Row<C>],
    steps: &mut [Step<C::Label>],
    turning: &mut [Step<C::Label>],
    page: &mut [u8],
) -> Result<usize, Fault>
    // The answer, both lists and the page, on every input.
    ensures exact { record { answer = result; steps = steps.new; turning = turning.new; page = page.new } ≡ file_of C.Cost C.forms N.Network E.Estimates found.now run sheet.now steps.old turning.old page.old }
    // On every sheet: what was filed, Read accepts, it means what was put in, and Retrace confirms it.
    ensures filed { FiledBy C.Cost C.forms N.Network E.Estimates found.now run result steps.new page.new }
    // Where the search had its sheet to itself, only a list shorter than the route or a page shorter than its bytes is
    // turned down, and no route costs less.
    ensures stands { (calls : List Call) → FoundBy C.Cost N.Network E.Estimates calls found.now sheet.now → FileStands C.Cost C.forms N.Network E.Estimates found.now run sheet.now (min (length steps.old) (length turning.old)) (length page.old) result page.new }
{
    promised::<C, N, E>(found.network(), found.estimates());
    file_route::<C, N, E>(found, run, sheet, steps, turning, page)
}

fn write_none<C: PageCost, N: Network<C>, E: Estimates<C>>(
    none: &NoRoute<C, N, E>,
    run: u32,
    page: &mut [u8],
) -> Result<usize, Fault>
    ensures exact { record { answer = result; page = page.new } ≡ file_none_of C.Cost C.forms N.Network E.Estimates none.now run page.old }
    ensures filed { NoneFiledBy C.Cost C.forms N.Network E.Estimates none.now run result page.new }
{
    let no_steps = [];
    let answer = WholeAnswer {
        run,
        outcome: Outcome::NoRoute,
        cost: C::ZERO,
        taken: none.taken(),
        steps: &no_steps,
    };
    write::<C, N, E>(page, none.network(), none.estimates(), Some(answer))
}

/// Files under a run number that there is no route, and answers how many bytes. Turned down, the page stands.
pub fn file_none<C: PageCost, N: Network<C>, E: Estimates<C>>(
    none: &NoRoute<C, N, E>,
    run: u32,
    page: &mut [u8],
) -> Result<usize, Fault>
    // The answer and the page, on every input.
    ensures exact { record { answer = result; page = page.new } ≡ file_none_of C.Cost C.forms N.Network E.Estimates none.now run page.old }
    // What was filed, Read accepts, and it means what was put in.
    ensures filed { NoneFiledBy C.Cost C.forms N.Network E.Estimates none.now run result page.new }
    // Where the search had its sheet to itself, there is no route, and only a page shorter than its bytes is turned down.
    ensures stands { (calls : List Call) → NoneBy C.Cost N.Network E.Estimates calls none.now → FileNoneStands C.Cost C.forms N.Network E.Estimates none.now run (length page.old) result page.new }
{
    promised::<C, N, E>(none.network(), none.estimates());
    write_none::<C, N, E>(none, run, page)
}
