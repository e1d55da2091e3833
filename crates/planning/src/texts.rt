//! The lines that are printed.
ghost use Rattle.std.specs.Prelude.{◌≡◌, ◌++◌, IfOk, OnOk, string_bytes};
ghost use Rattle.planning.specs.Texts.{cost_line, step_line, route_text, none_text, refused_text};

use amounts::forms::{LabelForm, PageCost};
use contents::answer::Step;
use faults::Fault;
use std::alloc::{AllocError, Global};

fn cost_line<C: PageCost>(heap: Global, cost: C::Label, taken: usize) -> Result<String, AllocError>
    ensures { IfOk result (λ s. string_bytes s ≡ cost_line C.Cost C.forms cost taken) }
{
    let LabelForm { moves, samples } = C::shown(cost).unwrap_or_default();
    format!(in heap; "cost {moves} {samples} taken {taken}\n")
}

/// Puts a step's line behind what is there.
fn put_step<C: PageCost>(out: &mut String, step: Step<C::Label>) -> Result<(), AllocError>
    ensures { OnOk result (string_bytes out.new ≡ string_bytes out.old ++ step_line C.Cost C.forms step) }
{
    let Step {
        section,
        from,
        to,
        so_far,
    } = step;
    let LabelForm { moves, samples } = C::shown(so_far).unwrap_or_default();
    writeln!(out, "{section} {from} {to} {moves} {samples}")
}

/// A route's lines.
pub(crate) fn route_text<C: PageCost>(
    heap: Global,
    cost: C::Label,
    taken: usize,
    steps: &[Step<C::Label>],
) -> Result<String, AllocError>
    ensures { IfOk result (λ s. string_bytes s ≡ route_text C.Cost C.forms cost taken steps.now) }
{
    let mut out = cost_line::<C>(heap, cost, taken)?;
    for step in steps {
        put_step::<C>(&mut out, *step)?;
    }
    Ok(out)
}

/// The line where there is no route.
pub(crate) fn none_text(heap: Global, taken: usize) -> Result<String, AllocError>
    ensures { IfOk result (λ s. string_bytes s ≡ none_text taken) }
{
    format!(in heap; "none taken {taken}\n")
}

/// The line of what is refused.
pub(crate) fn refused_text(heap: Global, fault: Fault) -> Result<String, AllocError>
    ensures { IfOk result (λ s. string_bytes s ≡ refused_text fault) }
{
    format!(in heap; "{fault}\n")
}
