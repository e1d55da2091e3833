//! The questions of a page's view, answered from the page's own bytes.
ghost use Rattle.std.specs.Prelude.{◌≡◌, ◌+◌, ◌*◌, ◌≤◌, length, drop};
ghost use Rattle.std.specs.List.{slice_get};
ghost use Rattle.records.specs.Layout.{section_shape, estimate_shape};
ghost use Rattle.records.specs.Shapes.{size_of, decoded_run};
ghost use Rattle.contents.specs.Checks.{header_of, section_bytes, estimate_bytes};
ghost use Rattle.contents.specs.Content.{start_of, from_of, to_of, section_from, label_from, pair_from, net_of, pairs_of};

use crate::view::PageView;
use amounts::forms::{LabelForm, PageCost};
use faults::Side;
use networks::estimates::{Estimates, Pair};
use networks::network::Network;
use networks::section::Section;
use records::due::bytes_from;
use records::kinds::{EstimateRecord, HeaderRecord, SectionRecord};
use records::record::Record;

/// The k-th of so many records from an offset on.
pub(crate) fn nth_record<R: Record<SIZE>, const SIZE: usize>(
    bytes: &[u8],
    from: usize,
    count: usize,
    k: usize,
) -> Option<R>
    requires { from + size_of R.Record.shape * count ≤ length bytes.now }
    ensures { result ≡ slice_get (decoded_run R.Record.shape count (drop from bytes.now)) k }
{
    if k >= count {
        return None;
    }
    R::front(bytes_from(bytes, from + SIZE * k))
}

/// The section that a record tells.
fn section_from<C: PageCost>(body: SectionRecord) -> Section<C::Section>
    ensures { result ≡ section_from C.Cost C.forms body }
{
    Section {
        from: usize::from(body.from),
        to: usize::from(body.to),
        amount: C::made(body.amount),
        shut: body.state == 1,
    }
}

/// The amount that a form tells, or zero.
pub(crate) fn label_from<C: PageCost>(form: LabelForm) -> C::Label
    ensures { result ≡ label_from C.Cost C.forms form }
{
    C::told(form).unwrap_or(C::ZERO)
}

fn pair_from<C: PageCost>(body: EstimateRecord) -> Pair<C::Label>
    ensures { result ≡ pair_from C.Cost C.forms body }
{
    Pair {
        forward: label_from::<C>(body.forward),
        backward: label_from::<C>(body.backward),
    }
}

impl<C: PageCost> PageView<'_, C> {
    /// Where a section goes from and to; 0 where there is none.
    pub(crate) fn ends(&self, number: usize) -> (usize, usize)
        ensures { result ≡ (from_of (slice_get (net_of C.Cost C.forms self.now.bytes.now).sections number), to_of (slice_get (net_of C.Cost C.forms self.now.bytes.now).sections number)) }
    {
        self.section_record(number).map_or((0, 0), |body| {
            (usize::from(body.from), usize::from(body.to))
        })
    }

    fn section_record(&self, number: usize) -> Option<SectionRecord>
        ensures { result ≡ slice_get (decoded_run section_shape (header_of self.now.bytes.now).sections (section_bytes self.now.bytes.now)) number }
    {
        nth_record(
            self.bytes,
            HeaderRecord::SIZE,
            usize::from(self.header.sections),
            number,
        )
    }

    fn estimate_record(&self, station: usize) -> Option<EstimateRecord>
        ensures { result ≡ slice_get (decoded_run estimate_shape (header_of self.now.bytes.now).stations (estimate_bytes self.now.bytes.now)) station }
    {
        let from = HeaderRecord::SIZE + SectionRecord::SIZE * usize::from(self.header.sections);
        nth_record(self.bytes, from, usize::from(self.header.stations), station)
    }
}

/// The station at which a side comes to a section.
fn start(body: &SectionRecord, side: Side) -> usize
    ensures { result ≡ start_of side body.now }
{
    match side {
        Side::Forward => usize::from(body.from),
        Side::Backward => usize::from(body.to),
    }
}

impl<'a, C: PageCost> Network<C> for PageView<'a, C> {
    ghost meaning = { λ v. net_of C.Cost C.forms v.bytes.now };

    fn stations(&self) -> usize {
        usize::from(self.header.stations)
    }

    fn sections(&self) -> usize {
        usize::from(self.header.sections)
    }

    fn launcher(&self) -> usize {
        usize::from(self.header.launcher)
    }

    fn trap(&self) -> usize {
        usize::from(self.header.trap)
    }

    fn section(&self, number: usize) -> Option<Section<C::Section>> {
        Some(section_from::<C>(self.section_record(number)?))
    }

    /// By a scan of the sections.
    fn touching(&self, side: Side, station: usize, k: usize) -> Option<usize> {
        // Kept: `filter` and `nth` over the numbers were tried, and got no proof that the k-th of the meaning comes.
        let mut left = k;
        for number in 0..usize::from(self.header.sections) {
            let Some(body) = self.section_record(number) else {
                return None;
            };
            if start(&body, side) == station {
                if left == 0 {
                    return Some(number);
                }
                left -= 1;
            }
        }
        None
    }
}

impl<'a, C: PageCost> Estimates<C> for PageView<'a, C> {
    ghost meaning = { λ v. pairs_of C.Cost C.forms v.bytes.now };

    fn count(&self) -> usize {
        usize::from(self.header.stations)
    }

    fn pair(&self, station: usize) -> Option<Pair<C::Label>> {
        Some(pair_from::<C>(self.estimate_record(station)?))
    }
}
