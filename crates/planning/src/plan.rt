//! A page's plan, as it is printed.
ghost use Rattle.std.specs.Prelude.{◌≡◌, List, IfOk, string_bytes};
ghost use Rattle.search.specs.Calls.{posed};
ghost use Rattle.search.specs.Claims.{Call};
ghost use Rattle.filing.specs.Claims.{FoundBy};
ghost use Rattle.planning.specs.Answering.{Answered};
ghost use Rattle.planning.specs.Turns.{taken_in_turn};
ghost use Rattle.planning.specs.Claims.{Told, PlanStands};
ghost use Rattle.planning.specs.Planned.{found_text, text_of, plan_for, planned_of, plan_of, told};

use crate::blanks::{blank_sheet, blank_steps};
use crate::error::PlanError;
use crate::texts::{none_text, refused_text, route_text};
use crate::turns::search_in_turn;
use amounts::cost::Cost;
use amounts::forms::PageCost;
use amounts::kinds::{Moves, Samples};
use filing::route::route;
use networks::estimates::Estimates;
use networks::network::Network;
use optimality::sheet::Row;
use pages::read::{blank, read};
use pages::view::PageView;
use search::running::{Finished, Found};
use std::alloc::{AllocError, Global};

/// The text of a found route.
fn found_text<C: PageCost, N: Network<C>, E: Estimates<C>>(
    heap: Global,
    found: &Found<C, N, E>,
    sheet: &[Row<C>],
) -> Result<String, PlanError>
    ensures exact { Answered string_bytes result (λ r. r ≡ found_text C.Cost C.forms (N.Network.meaning found.now.net) found.now.cost found.now.taken found.now.meeting sheet.now) }
    ensures stands { (calls : List Call) → FoundBy C.Cost N.Network E.Estimates calls found.now sheet.now → found.now.taken ≡ taken_in_turn (posed C.Cost N.Network E.Estimates found.now.net found.now.estimates) → Answered string_bytes result (λ r. Told (posed C.Cost N.Network E.Estimates found.now.net found.now.estimates) C.forms (told r)) }
{
    let places = found.network().stations();
    let mut steps = blank_steps::<C>(heap, places)?;
    let mut turning = blank_steps::<C>(heap, places)?;
    let count = route::<C, N, E>(found, sheet, steps.as_mut_slice(), turning.as_mut_slice())?;
    steps.truncate(count);
    Ok(route_text::<C>(heap, found.cost(), found.taken(), steps.as_slice())?)
}

/// The text of a search over a network and estimates.
fn searched_text<C: PageCost, N: Network<C> + Drop, E: Estimates<C> + Drop>(
    heap: Global,
    net: N,
    estimates: E,
) -> Result<String, PlanError>
    ensures exact { Answered string_bytes result (λ r. r ≡ text_of (posed C.Cost N.Network E.Estimates net estimates) C.forms) }
    ensures stands { Answered string_bytes result (λ r. Told (posed C.Cost N.Network E.Estimates net estimates) C.forms (told r)) }
{
    let mut sheet = blank_sheet::<C>(heap, net.stations())?;
    match search_in_turn::<C, N, E>(net, estimates, sheet.as_mut_slice())? {
        Finished::Found(found) => found_text::<C, N, E>(heap, &found, sheet.as_slice()),
        Finished::NoRoute(none) => Ok(none_text(heap, none.taken())?),
    }
}

/// The text of a page that is read for a kind of cost.
fn plan_for<C: PageCost>(heap: Global, page: &[u8]) -> Result<String, PlanError>
    ensures exact { Answered string_bytes result (λ r. r ≡ plan_for C.Cost C.forms page.now) }
    ensures stands { Answered string_bytes result (λ r. PlanStands C.Cost C.forms page.now (told r)) }
{
    let mut view = blank::<C>();
    read(page, &mut view)?;
    searched_text::<C, PageView<'_, C>, PageView<'_, C>>(heap, view, view)
}

/// The text of a page, for the kind of moves where its second byte says so, else for that of samples.
fn planned(heap: Global, page: &[u8]) -> Result<String, PlanError>
    ensures exact { Answered string_bytes result (λ r. r ≡ planned_of ⟦<Samples as Cost>⟧ ⟦<Samples as PageCost>⟧.forms ⟦<Moves as Cost>⟧ ⟦<Moves as PageCost>⟧.forms page.now) }
    ensures stands_moves { Answered string_bytes result (λ r. PlanStands ⟦<Moves as Cost>⟧ ⟦<Moves as PageCost>⟧.forms page.now (told r)) }
    ensures stands_samples { Answered string_bytes result (λ r. PlanStands ⟦<Samples as Cost>⟧ ⟦<Samples as PageCost>⟧.forms page.now (told r)) }
{
    match page {
        [_, 2, ..] => plan_for::<Moves>(heap, page),
        _ => plan_for::<Samples>(heap, page),
    }
}

/// What is printed of a page: its plan, or the line of the refusal by which it has none.
pub fn plan(heap: Global, page: &[u8]) -> Result<String, AllocError>
    // The text, on every input.
    ensures exact { IfOk result (λ s. string_bytes s ≡ plan_of ⟦<Samples as Cost>⟧ ⟦<Samples as PageCost>⟧.forms ⟦<Moves as Cost>⟧ ⟦<Moves as PageCost>⟧.forms page.now) }
    // Of a page that either kind accepts, with consistent estimates, it is a route that no route undercuts, or that
    // there is none; and how many steps were accepted.
    ensures stands_moves { IfOk result (λ s. PlanStands ⟦<Moves as Cost>⟧ ⟦<Moves as PageCost>⟧.forms page.now (string_bytes s)) }
    ensures stands_samples { IfOk result (λ s. PlanStands ⟦<Samples as Cost>⟧ ⟦<Samples as PageCost>⟧.forms page.now (string_bytes s)) }
{
    match planned(heap, page) {
        Ok(text) => Ok(text),
        Err(PlanError::Refused(fault)) => refused_text(heap, fault),
        Err(PlanError::OutOfMemory) => Err(AllocError),
    }
}
