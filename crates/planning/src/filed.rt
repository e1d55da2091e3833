//! A page's plan, filed on a page.
ghost use Rattle.std.specs.Prelude.{◌≡◌, List, vec_items};
ghost use Rattle.search.specs.Claims.{Call};
ghost use Rattle.search.specs.Calls.{posed};
ghost use Rattle.filing.specs.Claims.{FoundBy, NoneBy};
ghost use Rattle.planning.specs.Answering.{Answered};
ghost use Rattle.planning.specs.Turns.{taken_in_turn};
ghost use Rattle.planning.specs.Claims.{Filed, FiledStands};
ghost use Rattle.planning.specs.Filed.{found_page, none_page, page_of, filed_for, filed_of};

use crate::blanks::{blank_page, blank_sheet, blank_steps};
use crate::error::PlanError;
use crate::turns::search_in_turn;
use amounts::cost::Cost;
use amounts::forms::PageCost;
use amounts::kinds::{Moves, Samples};
use filing::file::{file, file_none};
use networks::estimates::Estimates;
use networks::network::Network;
use optimality::sheet::Row;
use pages::read::{blank, read};
use pages::view::PageView;
use search::running::{Finished, Found, NoRoute};
use std::alloc::Global;

/// The page of a found route.
fn found_page<C: PageCost, N: Network<C>, E: Estimates<C>>(
    heap: Global,
    found: &Found<C, N, E>,
    run: u32,
    sheet: &[Row<C>],
) -> Result<Vec<u8>, PlanError>
    ensures exact { Answered vec_items result (λ r. r ≡ found_page (posed C.Cost N.Network E.Estimates found.now.net found.now.estimates) C.forms run found.now.cost found.now.taken found.now.meeting sheet.now) }
    ensures stands { (calls : List Call) → FoundBy C.Cost N.Network E.Estimates calls found.now sheet.now → found.now.taken ≡ taken_in_turn (posed C.Cost N.Network E.Estimates found.now.net found.now.estimates) → Answered vec_items result (λ r. Filed (posed C.Cost N.Network E.Estimates found.now.net found.now.estimates) C.forms run r) }
{
    let places = found.network().stations();
    let mut steps = blank_steps::<C>(heap, places)?;
    let mut turning = blank_steps::<C>(heap, places)?;
    let mut page = blank_page::<C, N>(heap, found.network())?;
    let written = file::<C, N, E>(
        found,
        run,
        sheet,
        steps.as_mut_slice(),
        turning.as_mut_slice(),
        page.as_mut_slice(),
    )?;
    page.truncate(written);
    Ok(page)
}

/// The page where there is no route.
fn none_page<C: PageCost, N: Network<C>, E: Estimates<C>>(
    heap: Global,
    none: &NoRoute<C, N, E>,
    run: u32,
) -> Result<Vec<u8>, PlanError>
    ensures exact { Answered vec_items result (λ r. r ≡ none_page (posed C.Cost N.Network E.Estimates none.now.net none.now.estimates) C.forms run none.now.taken) }
    ensures stands { (calls : List Call) → NoneBy C.Cost N.Network E.Estimates calls none.now → none.now.taken ≡ taken_in_turn (posed C.Cost N.Network E.Estimates none.now.net none.now.estimates) → Answered vec_items result (λ r. Filed (posed C.Cost N.Network E.Estimates none.now.net none.now.estimates) C.forms run r) }
{
    let mut page = blank_page::<C, N>(heap, none.network())?;
    let length = file_none::<C, N, E>(none, run, page.as_mut_slice())?;
    page.truncate(length);
    Ok(page)
}

/// The page of a search over a network and estimates.
fn searched_page<C: PageCost, N: Network<C> + Drop, E: Estimates<C> + Drop>(
    heap: Global,
    net: N,
    estimates: E,
    run: u32,
) -> Result<Vec<u8>, PlanError>
    ensures exact { Answered vec_items result (λ r. r ≡ page_of (posed C.Cost N.Network E.Estimates net estimates) C.forms run) }
    ensures stands { Answered vec_items result (λ r. Filed (posed C.Cost N.Network E.Estimates net estimates) C.forms run r) }
{
    let mut sheet = blank_sheet::<C>(heap, net.stations())?;
    match search_in_turn::<C, N, E>(net, estimates, sheet.as_mut_slice())? {
        Finished::Found(found) => found_page::<C, N, E>(heap, &found, run, sheet.as_slice()),
        Finished::NoRoute(none) => none_page::<C, N, E>(heap, &none, run),
    }
}

/// The page that is filed of one that is read for a kind of cost.
fn filed_for<C: PageCost>(heap: Global, page: &[u8], run: u32) -> Result<Vec<u8>, PlanError>
    ensures exact { Answered vec_items result (λ r. r ≡ filed_for C.Cost C.forms run page.now) }
    ensures stands { Answered vec_items result (λ r. FiledStands C.Cost C.forms run page.now r) }
{
    let mut view = blank::<C>();
    read(page, &mut view)?;
    searched_page::<C, PageView<'_, C>, PageView<'_, C>>(heap, view, view, run)
}

/// The page that is filed under a run number, for the kind of moves where the second byte says so, else for that of
/// samples: network and estimates as they stand, with the answer.
pub fn filed(heap: Global, page: &[u8], run: u32) -> Result<Vec<u8>, PlanError>
    // The page or the fault, on every input.
    ensures exact { Answered vec_items result (λ r. r ≡ filed_of ⟦<Samples as Cost>⟧ ⟦<Samples as PageCost>⟧.forms ⟦<Moves as Cost>⟧ ⟦<Moves as PageCost>⟧.forms page.now run) }
    // Of a page that either kind accepts, with consistent estimates, one with a route that no route undercuts, or that
    // says there is none; and how many steps were accepted.
    ensures stands_moves { Answered vec_items result (λ r. FiledStands ⟦<Moves as Cost>⟧ ⟦<Moves as PageCost>⟧.forms run page.now r) }
    ensures stands_samples { Answered vec_items result (λ r. FiledStands ⟦<Samples as Cost>⟧ ⟦<Samples as PageCost>⟧.forms run page.now r) }
{
    match page {
        [_, 2, ..] => filed_for::<Moves>(heap, page, run),
        _ => filed_for::<Samples>(heap, page, run),
    }
}
