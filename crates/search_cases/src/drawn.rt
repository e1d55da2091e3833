//! Small networks as pages, and sheets and searches over them.
use amounts::forms::{LabelForm, PageCost, SectionForm};
use amounts::kinds::Samples;
use faults::{Fault, Layer, Refusal, Side};
use optimality::sheet::{Ceiling, Mark, Row};
use pages::read::{blank, read};
use pages::view::PageView;
use records::kinds::{EstimateRecord, HeaderRecord, SectionRecord};
use records::record::Record;
use search::running::{Bounds, Running};
use std::alloc::{AllocError, Global};
use std::array;

/// An open section of so many samples.
pub(crate) fn pipe(from: u16, to: u16, samples: u32) -> SectionRecord {
    SectionRecord {
        state: 0,
        from,
        to,
        amount: SectionForm { moves: 0, samples },
    }
}

/// A station's estimates in samples.
pub(crate) fn pair(forward: u64, backward: u64) -> EstimateRecord {
    EstimateRecord {
        forward: LabelForm {
            moves: 0,
            samples: forward,
        },
        backward: LabelForm {
            moves: 0,
            samples: backward,
        },
    }
}

/// The sections of the network of five stations.
pub(crate) fn pipes() -> [SectionRecord; 6] {
    [
        pipe(0, 1, 4),
        pipe(0, 2, 2),
        pipe(2, 1, 1),
        pipe(1, 4, 5),
        pipe(2, 3, 6),
        pipe(3, 4, 1),
    ]
}

/// The estimates of the network of five stations.
pub(crate) fn pairs() -> [EstimateRecord; 5] {
    [pair(6, 0), pair(4, 2), pair(5, 2), pair(1, 6), pair(0, 7)]
}

/// A page of sections and of a pair of estimates for each station, from the launcher 0 to a trap.
pub(crate) fn page<C: PageCost>(
    heap: Global,
    trap: u16,
    sections: &[SectionRecord],
    estimates: &[EstimateRecord],
) -> Result<Vec<u8>, AllocError> {
    let header = HeaderRecord {
        kind: C::KIND,
        stations: u16::try_from(estimates.len()).unwrap_or(u16::MAX),
        sections: u16::try_from(sections.len()).unwrap_or(u16::MAX),
        launcher: 0,
        trap,
    };
    let mut page = Vec::new(heap);
    page.extend_from_slice(&header.bytes())?;
    for section in sections {
        page.extend_from_slice(&section.bytes())?;
    }
    for estimate in estimates {
        page.extend_from_slice(&estimate.bytes())?;
    }
    page.push(0x5a)?;
    Ok(page)
}

/// The page of the network of five stations.
pub(crate) fn five_stations(heap: Global) -> Result<Vec<u8>, AllocError> {
    page::<Samples>(heap, 4, &pipes(), &pairs())
}

/// A view of a page.
pub(crate) fn view<C: PageCost>(page: &[u8]) -> Result<PageView<'_, C>, Fault> {
    let mut view = blank();
    read(page, &mut view)?;
    Ok(view)
}

/// A search over what pages tell, in samples.
pub(crate) type PageSearch<'a> = Running<Samples, PageView<'a, Samples>, PageView<'a, Samples>>;

/// Opens a search over the network of one page and the estimates of another, which may be the same.
pub(crate) fn open<'a>(
    net: &'a [u8],
    estimates: &'a [u8],
    sheet: &mut [Row<Samples>],
) -> Result<PageSearch<'a>, Fault> {
    Ok(Running::open(view(net)?, view(estimates)?, sheet)?)
}

/// Takes a step, and answers the bounds after it.
pub(crate) fn step(
    search: &mut PageSearch<'_>,
    sheet: &mut [Row<Samples>],
    side: Side,
) -> Result<Bounds<i64>, Fault> {
    match side {
        Side::Forward => search.forward(sheet)?,
        Side::Backward => search.backward(sheet)?,
    }
    search.bounds(sheet)
}

/// A sheet that nobody has written.
pub(crate) fn sheet<const ROWS: usize>() -> [Row<Samples>; ROWS] {
    array::from_fn(|_| Row::blank())
}

/// A side's mark at each station.
pub(crate) fn marks<const ROWS: usize>(
    sheet: &[Row<Samples>; ROWS],
    side: Side,
) -> [Option<Mark<i64>>; ROWS] {
    array::from_fn(|station| sheet.get(station)?.mark(side))
}

/// An open mark, written by section `arrival` or at the opening.
pub(crate) fn open_mark(label: i64, arrival: Option<usize>) -> Option<Mark<i64>> {
    Some(Mark {
        label,
        arrival,
        closed: false,
    })
}

/// A closed mark.
pub(crate) fn closed_mark(label: i64, arrival: Option<usize>) -> Option<Mark<i64>> {
    Some(Mark {
        label,
        arrival,
        closed: true,
    })
}

/// A floor, and no ceiling.
pub(crate) fn floor(amount: i64) -> Bounds<i64> {
    Bounds {
        floor: Some(amount),
        ceiling: Ceiling::Absent,
    }
}

/// A floor, and a ceiling that is met at a station.
pub(crate) fn between(amount: i64, ceiling: i64, station: usize) -> Bounds<i64> {
    Bounds {
        floor: Some(amount),
        ceiling: Ceiling::Met {
            amount: ceiling,
            station,
        },
    }
}

/// The fault of a step that is asked of an ended search.
pub(crate) fn ended(taken: usize) -> Fault {
    Layer::Search.fault(Refusal::Ended { taken })
}

/// The fault of a search that cannot be finished yet.
pub(crate) fn not_ended(taken: usize) -> Fault {
    Layer::Search.fault(Refusal::NotEnded { taken })
}

/// The fault of a sheet that is not the search's.
pub(crate) fn foreign(rows: usize) -> Fault {
    Layer::Search.fault(Refusal::ForeignSheet { rows })
}
