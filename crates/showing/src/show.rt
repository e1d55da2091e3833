//! What a page is shown as.
ghost use Rattle.std.specs.Prelude.{◌≡◌, ◌++◌, IfOk, OnOk, string_bytes};
ghost use Rattle.std.specs.List.{slice_get};
ghost use Rattle.contents.specs.Content.{net_of, pairs_of, answer_of, step_in};
ghost use Rattle.contents.specs.Retracing.{retraced};
ghost use Rattle.showing.specs.Shown.{line_of, section_line, station_line, step_line, answer_lines, verdict_line, shown_of, shown_for, PageShown, says_moves, show_of};

use crate::lines::put_lines;
use crate::texts::{answer_line, header_line, section_line, station_line, step_line};
use amounts::cost::Cost;
use amounts::forms::PageCost;
use amounts::kinds::{Moves, Samples};
use networks::estimates::Estimates;
use networks::network::Network;
use pages::read::{blank, read};
use pages::view::PageView;
use std::alloc::{AllocError, Global};

/// A section's line, or nothing.
fn numbered<C: PageCost>(
    heap: Global,
    view: &PageView<'_, C>,
    number: usize,
) -> Result<String, AllocError>
    ensures { IfOk result (λ s. string_bytes s ≡ line_of (section_line C.Cost C.forms number) (slice_get (net_of C.Cost C.forms view.now.bytes.now).sections number)) }
{
    match view.section(number) {
        Some(section) => section_line::<C>(heap, number, section),
        None => Ok(String::new(heap)),
    }
}

/// A station's line, or nothing.
fn estimated<C: PageCost>(
    heap: Global,
    view: &PageView<'_, C>,
    station: usize,
) -> Result<String, AllocError>
    ensures { IfOk result (λ s. string_bytes s ≡ line_of (station_line C.Cost C.forms station) (slice_get (pairs_of C.Cost C.forms view.now.bytes.now) station)) }
{
    match view.pair(station) {
        Some(pair) => station_line::<C>(heap, station, pair),
        None => Ok(String::new(heap)),
    }
}

/// A step's line, or nothing.
fn stepped<C: PageCost>(
    heap: Global,
    view: &PageView<'_, C>,
    k: usize,
) -> Result<String, AllocError>
    ensures { IfOk result (λ s. string_bytes s ≡ line_of (step_line C.Cost C.forms) (step_in (answer_of C.Cost C.forms view.now.bytes.now) k)) }
{
    match view.step(k) {
        Some(step) => step_line::<C>(heap, step),
        None => Ok(String::new(heap)),
    }
}

/// The answer's lines, where there is one.
fn put_answer<C: PageCost>(
    heap: Global,
    out: &mut String,
    view: &PageView<'_, C>,
) -> Result<(), AllocError>
    ensures { OnOk result (string_bytes out.new ≡ string_bytes out.old ++ answer_lines C.Cost C.forms (answer_of C.Cost C.forms view.now.bytes.now)) }
{
    let Some(answer) = view.answer() else {
        return Ok(());
    };
    out.push_str(answer_line::<C>(heap, answer)?.as_str())?;
    put_lines(out, answer.steps, |k| stepped::<C>(heap, view, k))
}

fn verdict<C: PageCost>(view: &PageView<'_, C>) -> &'static str
    ensures { result.now ≡ verdict_line (answer_of C.Cost C.forms view.now.bytes.now) (retraced C.Cost (net_of C.Cost C.forms view.now.bytes.now) (answer_of C.Cost C.forms view.now.bytes.now)) }
{
    if view.answer().is_none() {
        "no answer\n"
    } else if view.retrace() {
        "retraced yes\n"
    } else {
        "retraced no\n"
    }
}

/// The lines of an accepted page.
fn shown<C: PageCost>(heap: Global, view: &PageView<'_, C>) -> Result<String, AllocError>
    ensures { IfOk result (λ s. string_bytes s ≡ shown_of C.Cost C.forms view.now.bytes.now) }
{
    let mut out = header_line::<C, PageView<'_, C>>(heap, view)?;
    put_lines(&mut out, view.sections(), |number| {
        numbered::<C>(heap, view, number)
    })?;
    put_lines(&mut out, view.count(), |station| {
        estimated::<C>(heap, view, station)
    })?;
    put_answer::<C>(heap, &mut out, view)?;
    out.push_str(verdict::<C>(view))?;
    Ok(out)
}

/// The lines of a page that is read for a kind of cost, or its refusal.
pub fn show_for<C: PageCost>(heap: Global, page: &[u8]) -> Result<String, AllocError>
    ensures { IfOk result (λ s. string_bytes s ≡ shown_for C.Cost C.forms page.now) }
{
    let mut view = blank::<C>();
    match read(page, &mut view) {
        Ok(()) => shown::<C>(heap, &view),
        Err(fault) => format!(in heap; "{fault}\n"),
    }
}

/// The lines of a page, for the kind of moves where its second byte says so, else for that of samples.
pub fn show(heap: Global, page: &[u8]) -> Result<String, AllocError>
    // The text, on every input.
    ensures exact { IfOk result (λ s. string_bytes s ≡ show_of ⟦<Samples as Cost>⟧ ⟦<Samples as PageCost>⟧.forms ⟦<Moves as Cost>⟧ ⟦<Moves as PageCost>⟧.forms page.now) }
    // A page that either kind accepts is shown as what it means in this kind.
    ensures shown_moves { IfOk result (λ s. PageShown ⟦<Moves as Cost>⟧ ⟦<Moves as PageCost>⟧.forms page.now (string_bytes s)) }
    ensures shown_samples { IfOk result (λ s. PageShown ⟦<Samples as Cost>⟧ ⟦<Samples as PageCost>⟧.forms page.now (string_bytes s)) }
{
    match page {
        [_, 2, ..] => show_for::<Moves>(heap, page),
        _ => show_for::<Samples>(heap, page),
    }
}
