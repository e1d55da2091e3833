//! The lines of a page's parts.
ghost use Rattle.std.specs.Prelude.{◌≡◌, IfOk, string_bytes};
ghost use Rattle.showing.specs.Shown.{state_word, outcome_word, header_line, section_line, station_line, step_line, answer_line};

use amounts::forms::{LabelForm, PageCost, SectionForm};
use contents::answer::{Filed, Outcome, Step};
use networks::estimates::Pair;
use networks::network::Network;
use networks::section::Section;
use std::alloc::{AllocError, Global};

pub(crate) fn state_word(shut: bool) -> &'static str
    ensures { result.now ≡ state_word shut }
{
    if shut { "shut" } else { "open" }
}

pub(crate) fn outcome_word(outcome: Outcome) -> &'static str
    ensures { result.now ≡ outcome_word outcome }
{
    match outcome {
        Outcome::Found => "route",
        Outcome::NoRoute => "none",
    }
}

pub(crate) fn header_line<C: PageCost, N: Network<C>>(
    heap: Global,
    net: &N,
) -> Result<String, AllocError>
    ensures { IfOk result (λ s. string_bytes s ≡ header_line C.Cost C.forms (N.Network.meaning net.now)) }
{
    let kind = C::KIND;
    let stations = net.stations();
    let sections = net.sections();
    let launcher = net.launcher();
    let trap = net.trap();
    format!(in heap;
        "kind {kind} stations {stations} sections {sections} launcher {launcher} trap {trap}\n"
    )
}

/// A section's line.
pub(crate) fn section_line<C: PageCost>(
    heap: Global,
    number: usize,
    section: Section<C::Section>,
) -> Result<String, AllocError>
    ensures { IfOk result (λ s. string_bytes s ≡ section_line C.Cost C.forms number section) }
{
    let Section {
        from,
        to,
        amount,
        shut,
    } = section;
    let state = state_word(shut);
    let SectionForm { moves, samples } = C::parts(amount);
    let mut out = format!(in heap; "section {number} {state} {from} {to}")?;
    writeln!(out, " {moves} {samples}")?;
    Ok(out)
}

/// A station's line.
pub(crate) fn station_line<C: PageCost>(
    heap: Global,
    number: usize,
    pair: Pair<C::Label>,
) -> Result<String, AllocError>
    ensures { IfOk result (λ s. string_bytes s ≡ station_line C.Cost C.forms number pair) }
{
    let LabelForm { moves, samples } = C::shown(pair.forward).unwrap_or_default();
    let back = C::shown(pair.backward).unwrap_or_default();
    let back_moves = back.moves;
    let back_samples = back.samples;
    format!(in heap;
        "station {number} forward {moves} {samples} backward {back_moves} {back_samples}\n"
    )
}

/// A step's line.
pub(crate) fn step_line<C: PageCost>(
    heap: Global,
    step: Step<C::Label>,
) -> Result<String, AllocError>
    ensures { IfOk result (λ s. string_bytes s ≡ step_line C.Cost C.forms step) }
{
    let Step {
        section,
        from,
        to,
        so_far,
    } = step;
    let LabelForm { moves, samples } = C::shown(so_far).unwrap_or_default();
    format!(in heap; "step {section} {from} {to} {moves} {samples}\n")
}

/// An answer's line, without its steps.
pub(crate) fn answer_line<C: PageCost>(
    heap: Global,
    answer: Filed<C::Label>,
) -> Result<String, AllocError>
    ensures { IfOk result (λ s. string_bytes s ≡ answer_line C.Cost C.forms answer) }
{
    let Filed {
        run,
        outcome,
        cost,
        taken,
        steps: _,
    } = answer;
    let outcome = outcome_word(outcome);
    let LabelForm { moves, samples } = C::shown(cost).unwrap_or_default();
    format!(in heap; "answer run {run} {outcome} cost {moves} {samples} taken {taken}\n")
}
