//! Pages read, retraced, and written again from what they mean.
use crate::worked::{ANSWERED, MOVES_ANSWERED, MOVES_PLAIN, PLAIN, UNREACHED};
use amounts::forms::PageCost;
use amounts::kinds::{Moves, Samples};
use contents::answer::{Filed, Step, WholeAnswer};
use faults::{Fault, Layer, Refusal};
use networks::estimates::Estimates;
use networks::network::Network;
use pages::read::{blank, read};
use std::alloc::{AllocError, Global};
use std::test::Fail;
use writing::write::write;

/// Writes a network and estimates, with an answer and its steps.
fn put<C: PageCost, N: Network<C>, E: Estimates<C>>(
    out: &mut [u8],
    net: &N,
    estimates: &E,
    filed: Filed<C::Label>,
    steps: &[Step<C::Label>],
) -> Result<usize, Fault> {
    let Filed {
        run,
        outcome,
        cost,
        taken,
        steps: _,
    } = filed;
    let answer = WholeAnswer {
        run,
        outcome,
        cost,
        taken,
        steps,
    };
    write(out, net, estimates, Some(answer))
}

/// Writes what a page means over the front of another.
fn again<C: PageCost>(
    heap: Global,
    page: &[u8],
    out: &mut [u8],
) -> Result<Result<usize, Fault>, AllocError> {
    let mut view = blank::<C>();
    if let Err(fault) = read(page, &mut view) {
        return Ok(Err(fault));
    }
    let mut estimates = blank::<C>();
    if let Err(fault) = read(page, &mut estimates) {
        return Ok(Err(fault));
    }
    let Some(filed) = view.answer() else {
        return Ok(write(out, &view, &estimates, None));
    };
    let mut steps = Vec::new(heap);
    for k in 0..filed.steps {
        let Some(step) = view.step(k) else {
            break;
        };
        steps.push(step)?;
    }
    Ok(put(out, &view, &estimates, filed, steps.as_slice()))
}

#[test]
fn written_again(rt: HostRuntime) -> Result<(), Fail> {
    for page in [PLAIN.as_slice(), ANSWERED.as_slice(), UNREACHED.as_slice()] {
        let mut out = [0xaa; 300];
        assert_eq!(rt;
            again::<Samples>(rt.alloc(), page, &mut out)?,
            Ok(page.len())
        );
        assert_eq!(rt; out.get(..page.len()), Some(page));
    }
    for page in [MOVES_PLAIN.as_slice(), MOVES_ANSWERED.as_slice()] {
        let mut out = [0xaa; 300];
        assert_eq!(rt; again::<Moves>(rt.alloc(), page, &mut out)?, Ok(page.len()));
        assert_eq!(rt; out.get(..page.len()), Some(page));
    }
    Ok(())
}

#[test]
fn too_short_a_page(rt: HostRuntime) -> Result<(), Fail> {
    let mut out = [0xaa; 246];
    let short = Layer::Page.fault(Refusal::PageTooShort { needed: 247 });
    assert_eq!(rt;
        again::<Samples>(rt.alloc(), &ANSWERED, &mut out)?,
        Err(short)
    );
    assert_eq!(rt; (short.number(), short.place()), (11, 247));
    assert!(rt; out.iter().all(|byte| *byte == 0xaa));
    Ok(())
}

#[test]
fn another_kind(rt: HostRuntime) -> Result<(), Fail> {
    let mut out = [0; 300];
    let field = Layer::Page.fault(Refusal::FieldOutOfRange { offset: 0 });
    assert_eq!(rt; again::<Moves>(rt.alloc(), &PLAIN, &mut out)?, Err(field));
    assert_eq!(rt;
        again::<Samples>(rt.alloc(), &MOVES_PLAIN, &mut out)?,
        Err(field)
    );
    Ok(())
}

/// Whether a page that is read for a kind retraces.
fn retraces<C: PageCost>(page: &[u8]) -> Option<bool> {
    let mut view = blank::<C>();
    read(page, &mut view).ok()?;
    Some(view.retrace())
}

/// The page with an answer, one of its bytes changed.
fn with(offset: usize, byte: u8) -> [u8; 247] {
    let mut page = ANSWERED;
    if let Some(place) = page.get_mut(offset) {
        *place = byte;
    }
    page
}

#[test]
fn retraced(rt: HostRuntime) {
    assert_eq!(rt; retraces::<Samples>(&ANSWERED), Some(true));
    assert_eq!(rt; retraces::<Moves>(&MOVES_ANSWERED), Some(true));
    assert_eq!(rt; retraces::<Samples>(&PLAIN), Some(false));
    assert_eq!(rt; retraces::<Samples>(&UNREACHED), Some(false));
    // the amount of section 2, its state, the cost, and what the second step shows
    assert_eq!(rt;
        retraces::<Samples>(&with(10 + 12 * 2 + 11, 2)),
        Some(false)
    );
    assert_eq!(rt; retraces::<Samples>(&with(10 + 12 * 2 + 1, 1)), Some(false));
    assert_eq!(rt; retraces::<Samples>(&with(187 + 15, 9)), Some(false));
    assert_eq!(rt; retraces::<Samples>(&with(207 + 13 + 12, 4)), Some(false));
}
