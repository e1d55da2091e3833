//! The records of what is written.
ghost use Rattle.std.specs.Prelude.{◌≡◌, ◌^◌, ◌<◌, map, length};
ghost use Rattle.std.specs.List.{AllByRecursion, slice_get};
ghost use Rattle.networks.specs.Nets.{InRange};
ghost use Rattle.contents.specs.Content.{meant_of};
ghost use Rattle.contents.specs.Encoding.{form_of, header_record, section_record, estimate_record, answer_record, step_record};

use amounts::forms::{LabelForm, PageCost};
use contents::answer::{Step, WholeAnswer};
use networks::estimates::{Estimates, Pair};
use networks::network::Network;
use networks::section::Section;
use records::kinds::{AnswerRecord, EstimateRecord, HeaderRecord, SectionRecord, StepRecord};

/// An amount's form; zeros where it has none.
pub(crate) fn form_of<C: PageCost>(amount: C::Label) -> LabelForm
    ensures { result ≡ form_of C.Cost C.forms amount }
{
    C::shown(amount).unwrap_or_default()
}

pub(crate) fn header_body<C: PageCost, N: Network<C>>(net: &N) -> HeaderRecord
    ensures body { result ≡ header_record C.Cost C.forms (N.Network.meaning net.now) }
    ensures range { InRange C.Cost.section_range (N.Network.meaning net.now) }
{
    HeaderRecord {
        kind: C::KIND,
        stations: net.stations() as u16,
        sections: net.sections() as u16,
        launcher: net.launcher() as u16,
        trap: net.trap() as u16,
    }
}

fn section_body<C: PageCost>(section: Section<C::Section>) -> SectionRecord
    requires from { section.from < 2 ^ 16 }
    requires to { section.to < 2 ^ 16 }
    ensures { result ≡ section_record C.Cost C.forms section }
{
    SectionRecord {
        state: u8::from(section.shut),
        from: section.from as u16,
        to: section.to as u16,
        amount: C::parts(section.amount),
    }
}

fn estimate_body<C: PageCost>(pair: Pair<C::Label>) -> EstimateRecord
    ensures { result ≡ estimate_record C.Cost C.forms pair }
{
    EstimateRecord {
        forward: form_of::<C>(pair.forward),
        backward: form_of::<C>(pair.backward),
    }
}

/// A run by value, so that it is known to fit.
// Kept: a number in a struct behind a reference has no range to a proof, read in place or by a pattern.
fn run_number(run: u32) -> u32
    ensures same { result ≡ run }
    ensures fits { run < 2 ^ 32 }
{
    run
}

pub(crate) fn answer_body<C: PageCost>(answer: &WholeAnswer<'_, C::Label>) -> AnswerRecord
    requires steps { length answer.now.steps.now < 2 ^ 16 }
    requires taken { answer.now.taken < 2 ^ 16 }
    ensures run { answer.now.run < 2 ^ 32 }
    ensures body { result ≡ answer_record C.Cost C.forms (meant_of answer.now) }
{
    AnswerRecord {
        run: run_number(answer.run),
        outcome: answer.outcome as u8,
        cost: form_of::<C>(answer.cost),
        steps: answer.steps.len() as u16,
        taken: answer.taken as u16,
    }
}

fn step_body<C: PageCost>(step: Step<C::Label>) -> StepRecord
    requires { step.section < 2 ^ 16 }
    ensures { result ≡ step_record C.Cost C.forms step }
{
    StepRecord {
        section: step.section as u16,
        so_far: form_of::<C>(step.so_far),
    }
}

/// The record of the numbered section; absent past the last.
pub(crate) fn section_row<C: PageCost, N: Network<C>>(
    net: &N,
    number: usize,
) -> Option<SectionRecord>
    requires { InRange C.Cost.section_range (N.Network.meaning net.now) }
    ensures { result ≡ slice_get (map (section_record C.Cost C.forms) (N.Network.meaning net.now).sections) number }
{
    Some(section_body::<C>(net.section(number)?))
}

/// The record of a station's estimates; absent past the last.
pub(crate) fn estimate_row<C: PageCost, E: Estimates<C>>(
    estimates: &E,
    station: usize,
) -> Option<EstimateRecord>
    ensures { result ≡ slice_get (map (estimate_record C.Cost C.forms) (E.Estimates.meaning estimates.now)) station }
{
    Some(estimate_body::<C>(estimates.pair(station)?))
}

/// The record of a step, counted from 0; absent past the last.
pub(crate) fn step_row<C: PageCost>(steps: &[Step<C::Label>], k: usize) -> Option<StepRecord>
    requires { AllByRecursion (λ step. step.section < 2 ^ 16) steps.now }
    ensures { result ≡ slice_get (map (step_record C.Cost C.forms) steps.now) k }
{
    Some(step_body::<C>(*steps.get(k)?))
}
