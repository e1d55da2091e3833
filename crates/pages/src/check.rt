//! The checks of a page, record by record.
ghost use Rattle.std.specs.Prelude.{◌≡◌};
ghost use Rattle.contents.specs.Checks.{header_of, headed, due_end, due_answer, check_page};

use amounts::cost::Cost;
use faults::{Fault, Layer, Refusal};
use records::due::Rest;
use records::kinds::{
    AnswerRecord, EndRecord, EstimateRecord, HeaderRecord, SectionRecord, StepRecord,
};
use records::limits::Limits;
use records::record::Record;

/// Whether the end record is due and nothing follows it.
fn check_end(rest: Rest) -> Result<(), Fault>
    ensures { result ≡ due_end rest.entry.limits rest.entry.length rest.entry.bytes.now }
{
    let _: EndRecord = rest.due()?;
    if rest.bytes.len() > EndRecord::SIZE {
        return Err(Layer::Page.fault(Refusal::TrailingBytes {
            offset: rest.at() + EndRecord::SIZE,
        }));
    }
    Ok(())
}

/// Whether perhaps an answer with its steps, and then the end, are there.
fn check_answer(rest: Rest) -> Result<(), Fault>
    ensures { result ≡ due_answer rest.entry.limits rest.entry.length rest.entry.bytes.now }
{
    let [AnswerRecord::KIND, ..] = rest.bytes else {
        return check_end(rest);
    };
    let answer: AnswerRecord = rest.due()?;
    let steps = rest.behind(AnswerRecord::SIZE);
    steps.due_run::<StepRecord, _>(answer.steps)?;
    check_end(steps.behind(StepRecord::SIZE * usize::from(answer.steps)))
}

/// The header of a page that passes every check for a kind of cost.
pub(crate) fn check_page<C: Cost>(page: &[u8]) -> Result<HeaderRecord, Fault>
    ensures { result ≡ headed (header_of page.now) (check_page C.Cost.KIND page.now) }
{
    let kind = C::KIND;
    let whole = Rest {
        length: page.len(),
        bytes: page,
        limits: Limits {
            kind,
            stations: 0,
            sections: 0,
        },
    };
    let header: HeaderRecord = whole.due()?;
    let limits = Limits {
        kind,
        stations: header.stations,
        sections: header.sections,
    };
    let sections = Rest { limits, ..whole }.behind(HeaderRecord::SIZE);
    sections.due_run::<SectionRecord, _>(header.sections)?;
    let estimates = sections.behind(SectionRecord::SIZE * usize::from(header.sections));
    estimates.due_run::<EstimateRecord, _>(header.stations)?;
    check_answer(estimates.behind(EstimateRecord::SIZE * usize::from(header.stations)))?;
    Ok(header)
}
