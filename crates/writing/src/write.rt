//! Writing a page.
ghost use Rattle.std.specs.Prelude.{◌≡◌, ◌+◌, ◌^◌, ◌<◌, ◌≤◌, length, take, IfOk, None, Ok, Err};
ghost use Rattle.std.specs.Result.{result_err};
ghost use Rattle.std.specs.Option.{option_map};
ghost use Rattle.records.specs.Bytes.{overlay};
ghost use Rattle.faults.specs.declared.Layer.TheVariants as layer;
ghost use Rattle.faults.specs.Reasons.{FirstReason};
ghost use Rattle.contents.specs.Again.{Back, NeverRefused, WrittenAgain};
ghost use Rattle.contents.specs.Content.{meant_of};
ghost use Rattle.contents.specs.Encoding.{answer_encoded};
ghost use Rattle.contents.specs.Refusing.{write_reasons};
ghost use Rattle.contents.specs.Writing.{placed, answer_size, RunFits, Short, content_by, write_fault, write_of};
ghost use Rattle.writing.specs.Places.{size_with, answer_place};

use crate::bodies::{answer_body, estimate_row, header_body, section_row, step_row};
use crate::holds::check_answer;
use crate::rows::{put, put_run};
use amounts::cost::Cost;
use amounts::forms::PageCost;
use contents::answer::WholeAnswer;
use faults::{Fault, Layer, Refusal};
use networks::estimates::Estimates;
use networks::network::Network;
use records::kinds::{
    AnswerRecord, EndRecord, EstimateRecord, HeaderRecord, SectionRecord, StepRecord,
};

/// Where an answer with so many steps at an offset ends, as far as a machine number goes.
fn answer_end(at: usize, steps: Option<usize>) -> usize
    ensures { result ≡ placed (at + size_with steps) }
{
    match steps {
        Some(steps) => at
            .saturating_add(AnswerRecord::SIZE)
            .saturating_add(steps.saturating_mul(StepRecord::SIZE)),
        None => at,
    }
}

/// Where an answer with so many steps, or none, stands on a page of so many bytes; else the fault: other stations than
/// the network's, or too short a page.
pub fn answer_place<C: Cost, N: Network<C>, E: Estimates<C>>(
    room: usize,
    net: &N,
    estimates: &E,
    steps: Option<usize>,
) -> Result<usize, Fault>
    ensures exact { result ≡ answer_place (N.Network.meaning net.now) (E.Estimates.meaning estimates.now) room steps }
    ensures small { IfOk result (λ at. at < 2 ^ 32) }
{
    let count = estimates.count();
    if count != net.stations() {
        return Err(Layer::Page.fault(Refusal::EstimateCount { count }));
    }
    let at = HeaderRecord::SIZE
        + SectionRecord::SIZE * net.sections()
        + EstimateRecord::SIZE * count;
    let needed = answer_end(at, steps).saturating_add(EndRecord::SIZE);
    if room < needed {
        return Err(Layer::Page.fault(Refusal::PageTooShort { needed }));
    }
    Ok(at)
}

/// Puts an answer with its steps, if there is one, on the page from an offset on, and answers where they end.
fn put_answer<C: PageCost>(
    page: &mut [u8],
    at: usize,
    answer: &Option<WholeAnswer<'_, C::Label>>,
) -> usize
    requires room { at + answer_size (option_map meant_of answer.now) ≤ length page.old }
    requires short { Short (option_map meant_of answer.now) }
    ensures end { result ≡ at + answer_size (option_map meant_of answer.now) }
    ensures run { RunFits (option_map meant_of answer.now) }
    ensures page { page.new ≡ overlay page.old at (answer_encoded C.Cost C.forms (option_map meant_of answer.now)) }
{
    let Some(answer) = answer else {
        return at;
    };
    let steps = answer.steps;
    let end = put(page, at, &answer_body::<C>(answer));
    put_run(page, end, steps.len(), |k| step_row::<C>(steps, k))
}

// Kept: network, estimates and answer, as the caller of `write` gives them; a struct of them would be made there only
// to be taken apart here, and clauses would say `self.now.net.now` for `net.now`.
// Kept: an answer by `meant_of`; a type parameter for its steps leaves no one model for it.

/// Whether all can be written on a page of so many bytes; else the fault: other stations than the network's, too short
/// a page, then an answer that a page cannot hold.
fn check_write<C: PageCost, N: Network<C>, E: Estimates<C>>(
    room: usize,
    net: &N,
    estimates: &E,
    answer: &Option<WholeAnswer<'_, C::Label>>,
) -> Result<(), Fault>
    ensures { result_err result ≡ write_fault C.Cost C.forms room (content_by (N.Network.meaning net.now) (E.Estimates.meaning estimates.now) answer.now) }
{
    let steps = match answer {
        Some(answer) => Some(answer.steps.len()),
        None => None,
    };
    let at = answer_place::<C, N, E>(room, net, estimates, steps)?;
    check_answer::<C, N>(net, at, answer)
}

/// Puts everything on a page that can hold it, and answers how many bytes.
fn put_page<C: PageCost, N: Network<C>, E: Estimates<C>>(
    page: &mut [u8],
    net: &N,
    estimates: &E,
    answer: &Option<WholeAnswer<'_, C::Label>>,
) -> usize
    requires { write_fault C.Cost C.forms (length page.old) (content_by (N.Network.meaning net.now) (E.Estimates.meaning estimates.now) answer.now) ≡ None }
    ensures left { record { answer = Ok result; page = page.new } ≡ write_of C.Cost C.forms page.old (content_by (N.Network.meaning net.now) (E.Estimates.meaning estimates.now) answer.now) }
    ensures back { Back C.Cost C.forms (content_by (N.Network.meaning net.now) (E.Estimates.meaning estimates.now) answer.now) (take result page.new) }
{
    let end = put(page, 0, &header_body::<C, N>(net));
    let end = put_run(page, end, net.sections(), |number| {
        section_row::<C, N>(net, number)
    });
    let end = put_run(page, end, estimates.count(), |station| {
        estimate_row::<C, E>(estimates, station)
    });
    let end = put_answer::<C>(page, end, answer);
    put(page, end, &EndRecord)
}

/// Writes a network, estimates and perhaps an answer over the front of the page, and answers how many bytes.
/// Refused, it writes nothing, and the fault names the first reason. What is written reads back as what was put in;
/// what was read, written again, gives the same bytes.
pub fn write<C: PageCost, N: Network<C>, E: Estimates<C>>(
    page: &mut [u8],
    net: &N,
    estimates: &E,
    answer: Option<WholeAnswer<'_, C::Label>>,
) -> Result<usize, Fault>
    ensures left { record { answer = result; page = page.new } ≡ write_of C.Cost C.forms page.old (content_by (N.Network.meaning net.now) (E.Estimates.meaning estimates.now) answer.entry) }
    ensures back { elim result [ Ok n ↦ Back C.Cost C.forms (content_by (N.Network.meaning net.now) (E.Estimates.meaning estimates.now) answer.entry) (take n page.new) | Err _ ↦ Unit {0} ] }
    ensures reasons { FirstReason layer.Page (write_reasons C.Cost C.forms (length page.old) (content_by (N.Network.meaning net.now) (E.Estimates.meaning estimates.now) answer.entry)) (result_err result) }
    ensures held { NeverRefused C.Cost C.forms (content_by (N.Network.meaning net.now) (E.Estimates.meaning estimates.now) answer.entry) page.old result page.new }
    ensures again { WrittenAgain C.Cost C.forms (content_by (N.Network.meaning net.now) (E.Estimates.meaning estimates.now) answer.entry) page.old result page.new }
{
    check_write::<C, N, E>(page.len(), net, estimates, &answer)?;
    Ok(put_page::<C, N, E>(page, net, estimates, &answer))
}
