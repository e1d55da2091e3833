//! Lists that nobody has written.
ghost use Rattle.std.specs.Prelude.{◌≡◌, replicate, IfOk};
ghost use Rattle.optimality.specs.Sheets.{blank_row};
ghost use Rattle.planning.specs.Planned.{blank_steps};
ghost use Rattle.planning.specs.Filed.{blank_page};

use amounts::cost::Cost;
use contents::answer::Step;
use networks::network::Network;
use optimality::sheet::Row;
use records::kinds::{
    AnswerRecord, EndRecord, EstimateRecord, HeaderRecord, SectionRecord, StepRecord,
};
use std::alloc::{AllocError, Global};

/// A sheet of so many rows.
pub(crate) fn blank_sheet<C: Cost>(heap: Global, rows: usize) -> Result<Vec<Row<C>>, AllocError>
    ensures { IfOk result (λ v. v.items ≡ replicate rows blank_row) }
{
    let mut sheet = Vec::with_capacity(heap, rows)?;
    for _row in 0..rows {
        sheet.push(Row::blank())?;
    }
    Ok(sheet)
}

/// A list of so many places for steps.
pub(crate) fn blank_steps<C: Cost>(
    heap: Global,
    places: usize,
) -> Result<Vec<Step<C::Label>>, AllocError>
    ensures { IfOk result (λ v. v.items ≡ blank_steps C.Cost places) }
{
    let blank = Step {
        section: 0,
        from: 0,
        to: 0,
        so_far: C::ZERO,
    };
    let mut steps = Vec::with_capacity(heap, places)?;
    for _place in 0..places {
        steps.push(blank)?;
    }
    Ok(steps)
}

/// A page with room for a network, its estimates and an answer with a step for each station.
pub(crate) fn blank_page<C: Cost, N: Network<C>>(
    heap: Global,
    net: &N,
) -> Result<Vec<u8>, AllocError>
    ensures { IfOk result (λ v. v.items ≡ blank_page (N.Network.meaning net.now)) }
{
    let stations = net.stations();
    let room = HeaderRecord::SIZE
        + SectionRecord::SIZE * net.sections()
        + EstimateRecord::SIZE * stations
        + AnswerRecord::SIZE
        + StepRecord::SIZE * stations
        + EndRecord::SIZE;
    vec![in heap; 0; room]
}
