//! Plans and estimates as pages.
use crate::plan::{Amount, Plan};
use amounts::forms::{LabelForm, PageCost, SectionForm};
use faults::Fault;
use networks::estimates::Pair;
use pages::read::{blank, read};
use pages::view::PageView;
use records::kinds::{EndRecord, EstimateRecord, HeaderRecord, SectionRecord};
use records::record::Record;
use std::alloc::{AllocError, Global};

/// A number as it stands in two bytes; the largest one where it does not.
fn short(number: usize) -> u16 {
    u16::try_from(number).unwrap_or(u16::MAX)
}

fn section_form(amount: Amount) -> SectionForm {
    SectionForm {
        moves: u16::try_from(amount.moves).unwrap_or(u16::MAX),
        samples: u32::try_from(amount.samples).unwrap_or(u32::MAX),
    }
}

/// An amount as a label's form; its moves the most there are, where it has more.
pub fn label_form(amount: Amount) -> LabelForm {
    LabelForm {
        moves: u32::try_from(amount.moves).unwrap_or(u32::MAX),
        samples: amount.samples,
    }
}

/// The page of a network and its estimates.
pub fn page<C: PageCost>(
    heap: Global,
    plan: &Plan,
    estimates: &[Pair<Amount>],
) -> Result<Vec<u8>, AllocError> {
    let header = HeaderRecord {
        kind: C::KIND,
        stations: short(plan.stations),
        sections: short(plan.pipes.len()),
        launcher: short(plan.launcher),
        trap: short(plan.trap),
    };
    let mut page = Vec::new(heap);
    page.extend_from_slice(&header.bytes())?;
    for pipe in &plan.pipes {
        let section = SectionRecord {
            state: u8::from(pipe.shut),
            from: short(pipe.from),
            to: short(pipe.to),
            amount: section_form(pipe.amount),
        };
        page.extend_from_slice(&section.bytes())?;
    }
    for pair in estimates {
        let estimate = EstimateRecord {
            forward: label_form(pair.forward),
            backward: label_form(pair.backward),
        };
        page.extend_from_slice(&estimate.bytes())?;
    }
    page.extend_from_slice(&EndRecord.bytes())?;
    Ok(page)
}

/// A view of a page.
pub fn view<C: PageCost>(page: &[u8]) -> Result<PageView<'_, C>, Fault> {
    let mut view = blank();
    read(page, &mut view)?;
    Ok(view)
}
