//! Whether a page can hold an answer.
ghost use Rattle.std.specs.Prelude.{◌≡◌, not, ◌+◌, ◌*◌, ◌^◌, ◌<◌, length};
ghost use Rattle.std.specs.List.{position};
ghost use Rattle.std.specs.Result.{result_err};
ghost use Rattle.std.specs.Option.{option_map};
ghost use Rattle.contents.specs.Content.{meant_of};
ghost use Rattle.contents.specs.Writing.{step_good, nothing_at, meant_good, steps_fault, answer_fault};

use crate::bodies::form_of;
use amounts::forms::{LabelForm, PageCost};
use contents::answer::{Outcome, Step, WholeAnswer};
use faults::{Fault, Layer, Refusal};
use networks::network::Network;
use records::kinds::{AnswerRecord, StepRecord};
use records::limits::MOST_STEPS;

/// Whether the section is there, with these ends, and the cost so far stands on a page.
fn step_good<C: PageCost, N: Network<C>>(net: &N, step: Step<C::Label>) -> bool
    ensures { result ≡ step_good C.Cost C.forms (N.Network.meaning net.now) step }
{
    let Some(section) = net.section(step.section) else {
        return false;
    };
    step.from == section.from && step.to == section.to && C::shown(step.so_far).is_some()
}

/// Whether there is no cost and no step where there is no route.
fn nothing_at<C: PageCost>(outcome: Outcome, cost: C::Label, steps: usize) -> bool
    ensures { result ≡ nothing_at C.Cost C.forms outcome cost steps }
{
    match outcome {
        Outcome::Found => true,
        Outcome::NoRoute => form_of::<C>(cost) == LabelForm::default() && steps == 0,
    }
}

/// Whether a page can hold an answer, apart from its steps.
fn meant_good<C: PageCost, N: Network<C>>(net: &N, answer: &WholeAnswer<'_, C::Label>) -> bool
    ensures { result ≡ meant_good C.Cost C.forms (N.Network.meaning net.now) (meant_of answer.now) }
{
    let steps = answer.steps.len();
    C::shown(answer.cost).is_some()
        && steps <= usize::from(MOST_STEPS)
        && answer.taken < net.stations()
        && nothing_at::<C>(answer.outcome, answer.cost, steps)
}

/// The first step that a page cannot hold.
fn first_bad<C: PageCost, N: Network<C>>(net: &N, steps: &[Step<C::Label>]) -> Option<usize>
    ensures { result ≡ position (λ step. not (step_good C.Cost C.forms (N.Network.meaning net.now) step)) steps.now }
{
    steps.iter().position(|step| !step_good::<C, N>(net, *step))
}

/// Whether a page can hold each step; else the fault of the first that it cannot, at its record's offset.
fn check_steps<C: PageCost, N: Network<C>>(
    net: &N,
    at: usize,
    steps: &[Step<C::Label>],
) -> Result<(), Fault>
    requires { at + 13 * length steps.now < 2 ^ 64 }
    ensures { result_err result ≡ steps_fault C.Cost C.forms (N.Network.meaning net.now) at steps.now }
{
    match first_bad::<C, N>(net, steps) {
        Some(k) => Err(Layer::Page.fault(Refusal::FieldOutOfRange {
            offset: at + StepRecord::SIZE * k,
        })),
        None => Ok(()),
    }
}

/// Whether a page can hold an answer whose record has this offset.
pub(crate) fn check_answer<C: PageCost, N: Network<C>>(
    net: &N,
    at: usize,
    answer: &Option<WholeAnswer<'_, C::Label>>,
) -> Result<(), Fault>
    requires { at < 2 ^ 32 }
    ensures { result_err result ≡ answer_fault C.Cost C.forms (N.Network.meaning net.now) at (option_map meant_of answer.now) }
{
    let Some(answer) = answer else {
        return Ok(());
    };
    if !meant_good::<C, N>(net, answer) {
        return Err(Layer::Page.fault(Refusal::FieldOutOfRange { offset: at }));
    }
    check_steps::<C, N>(net, at + AnswerRecord::SIZE, answer.steps)
}
