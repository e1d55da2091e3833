//! Searches over pages of five stations, and the lists and pages that are handed over.
use amounts::cost::Cost;
use amounts::forms::PageCost;
use amounts::kinds::Samples;
use contents::answer::Step;
use faults::{Fault, Layer, Refusal, Side};
use optimality::sheet::Row;
use pages::read::{blank, read};
use pages::view::PageView;
use search::running::{Finished, Found, Running};
use std::test::Fail;

/// A page, some of its bytes changed.
pub(crate) fn changed<const LENGTH: usize>(
    mut page: [u8; LENGTH],
    bytes: &[(usize, u8)],
) -> [u8; LENGTH] {
    for (offset, byte) in bytes {
        if let Some(place) = page.get_mut(*offset) {
            *place = *byte;
        }
    }
    page
}

/// A view of a page.
fn view<C: PageCost>(page: &[u8]) -> Result<PageView<'_, C>, Fault> {
    let mut view = blank();
    read(page, &mut view)?;
    Ok(view)
}

/// A view of so many bytes at the front of a page.
pub(crate) fn front<C: PageCost>(page: &[u8], bytes: usize) -> Result<PageView<'_, C>, Fail> {
    let Some(front) = page.get(..bytes) else {
        return Err(Fail::new("too few bytes"));
    };
    Ok(view(front)?)
}

/// A sheet that nobody has written, with a row more than there are stations.
pub(crate) fn sheet<C: Cost>() -> [Row<C>; 6] {
    [
        Row::blank(),
        Row::blank(),
        Row::blank(),
        Row::blank(),
        Row::blank(),
        Row::blank(),
    ]
}

/// Steps from both ends in turn, after which a search over the page of five stations is ended.
pub(crate) const IN_TURN: [Side; 4] = [
    Side::Forward,
    Side::Backward,
    Side::Forward,
    Side::Backward,
];

/// What a search over a page's network and estimates ends in, after these steps.
pub(crate) fn finished<'a, C: PageCost>(
    page: &'a [u8],
    sides: &[Side],
    sheet: &mut [Row<C>],
) -> Result<Finished<C, PageView<'a, C>, PageView<'a, C>>, Fault> {
    let mut search = Running::open(view(page)?, view(page)?, sheet)?;
    for side in sides {
        match side {
            Side::Forward => search.forward(sheet)?,
            Side::Backward => search.backward(sheet)?,
        }
    }
    Ok(search.finish(sheet)?)
}

/// The route that it finds, in samples.
pub(crate) fn found<'a>(
    page: &'a [u8],
    sides: &[Side],
    sheet: &mut [Row<Samples>],
) -> Result<Found<Samples, PageView<'a, Samples>, PageView<'a, Samples>>, Fail> {
    match finished(page, sides, sheet)? {
        Finished::Found(found) => Ok(found),
        Finished::NoRoute(_) => Err(Fail::new("no route")),
    }
}

/// What a place of a list holds that nobody has written.
pub(crate) const UNWRITTEN: Step<i64> = Step {
    section: 9,
    from: 9,
    to: 9,
    so_far: -9,
};

/// The steps of the route of least cost, over sections 1, 2 and 3.
pub(crate) const FIRST: Step<i64> = Step {
    section: 1,
    from: 0,
    to: 2,
    so_far: 2,
};

pub(crate) const SECOND: Step<i64> = Step {
    section: 2,
    from: 2,
    to: 1,
    so_far: 3,
};

pub(crate) const THIRD: Step<i64> = Step {
    section: 3,
    from: 1,
    to: 4,
    so_far: 8,
};

/// The fault of a sheet of so many rows that is not the search's.
pub(crate) fn foreign(rows: usize) -> Fault {
    Layer::Filing.fault(Refusal::ForeignSheet { rows })
}

/// The fault of a list of so many places.
pub(crate) fn short_list(places: usize) -> Fault {
    Layer::Filing.fault(Refusal::ListTooShort { places })
}

/// The fault of a page that needs so many bytes.
pub(crate) fn short_page(needed: usize) -> Fault {
    Layer::Page.fault(Refusal::PageTooShort { needed })
}
