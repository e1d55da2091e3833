//! The answer on a page, read from the page's own bytes.
ghost use Rattle.std.specs.Prelude.{◌≡◌, ◌+◌, ◌*◌, if◌then◌else◌, Some, None};
ghost use Rattle.std.specs.List.{slice_get};
ghost use Rattle.std.specs.Option.{option_map};
ghost use Rattle.records.specs.Layout.{answer_shape};
ghost use Rattle.records.specs.Shapes.{decoded};
ghost use Rattle.contents.specs.Checks.{header_of, answer_bytes, has_answer};
ghost use Rattle.contents.specs.Content.{step_from, net_of, answer_of, filed_by, step_in};

use crate::page_network::{label_from, nth_record};
use crate::view::PageView;
use amounts::forms::PageCost;
use contents::answer::{Filed, Outcome, Step};
use records::due::bytes_from;
use records::kinds::{AnswerRecord, EstimateRecord, HeaderRecord, SectionRecord, StepRecord};
use records::record::Record;

impl<C: PageCost> PageView<'_, C> {
    /// Where an answer, or the end, stands.
    fn answer_at(&self) -> usize
        ensures { result ≡ 10 + 12 * (header_of self.now.bytes.now).sections + 21 * (header_of self.now.bytes.now).stations }
    {
        HeaderRecord::SIZE
            + SectionRecord::SIZE * usize::from(self.header.sections)
            + EstimateRecord::SIZE * usize::from(self.header.stations)
    }

    fn answer_record(&self) -> Option<AnswerRecord>
        ensures { result ≡ (if has_answer (answer_bytes self.now.bytes.now) then Some (decoded answer_shape (answer_bytes self.now.bytes.now)) else None) }
    {
        let rest = bytes_from(self.bytes, self.answer_at());
        let [AnswerRecord::KIND, ..] = rest else {
            return None;
        };
        AnswerRecord::front(rest)
    }

    /// The answer on the page, if there is one, without its steps.
    pub fn answer(&self) -> Option<Filed<C::Label>>
        ensures { result ≡ option_map filed_by (answer_of C.Cost C.forms self.now.bytes.now) }
    {
        let body = self.answer_record()?;
        Some(Filed {
            run: body.run,
            outcome: Outcome::from(body.outcome),
            cost: label_from::<C>(body.cost),
            taken: usize::from(body.taken),
            steps: usize::from(body.steps),
        })
    }

    /// The step that a record tells: its section, the section's ends, and the cost so far.
    fn step_from(&self, body: StepRecord) -> Step<C::Label>
        ensures { result ≡ step_from C.Cost C.forms (net_of C.Cost C.forms self.now.bytes.now).sections body }
    {
        let section = usize::from(body.section);
        let (from, to) = self.ends(section);
        Step {
            section,
            from,
            to,
            so_far: label_from::<C>(body.so_far),
        }
    }

    /// The k-th step of the answer, from 0.
    // Inlined, so that a loop over the steps looks at the answer's record once.
    #[inline]
    pub fn step(&self, k: usize) -> Option<Step<C::Label>>
        ensures { result ≡ step_in (answer_of C.Cost C.forms self.now.bytes.now) k }
    {
        let answer = self.answer_record()?;
        let body: StepRecord = nth_record(
            self.bytes,
            self.answer_at() + AnswerRecord::SIZE,
            usize::from(answer.steps),
            k,
        )?;
        Some(self.step_from(body))
    }
}
