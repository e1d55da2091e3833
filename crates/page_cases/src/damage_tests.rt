//! The page with an answer, cut at every length, and with one byte changed at every place.
use crate::worked::ANSWERED;
use amounts::kinds::Samples;
use faults::{Layer, Refusal};
use pages::read::{blank, read};

#[test]
fn cut_at_every_length(rt: HostRuntime) {
    for length in 0..ANSWERED.len() {
        let mut view = blank::<Samples>();
        let ends = Layer::Page.fault(Refusal::PageEnds { length });
        assert_eq!(rt;
            read(&ANSWERED[..length], &mut view),
            Err(ends),
            "at {length}"
        );
    }
}

/// Two things are wrong at one record, its kind and its length: the kind comes first.
#[test]
fn another_kind_cut_short(rt: HostRuntime) {
    let mut view = blank::<Samples>();
    let kind = Layer::Page.fault(Refusal::UnexpectedKind { offset: 0 });
    assert_eq!(rt; read(&[0x53], &mut view), Err(kind));
    assert_eq!(rt; (kind.number(), kind.place()), (2, 0));
}

/// What each byte of a record is: its kind `k`; a byte that 255 makes wrong `f`, or leaves right `.`; the low byte of a
/// count, which 255 leaves in its range, so that another record is due than stands there: of stations `e`, of sections
/// `s`, of steps `p`.
const HEADER: &[u8] = b"kffefsffff";

const SECTION: &[u8] = b"kfffffff....";

const ESTIMATE: &[u8] = b"kfffff.....fffff.....";

const ANSWER: &[u8] = b"k....ffffff.....fpff";

const STEP: &[u8] = b"kfffffff.....";

const END: &[u8] = b"k";

/// The number and the place of the refusal where the byte of a record at an offset is changed to 255.
fn expected(what: u8, record: usize) -> Option<(u8, usize)> {
    match what {
        b'k' => Some((2, record)),
        b'f' => Some((3, record)),
        b'e' => Some((2, 187)),
        b's' => Some((2, 82)),
        b'p' => Some((2, 246)),
        _ => None,
    }
}

/// The refusal where the byte at an offset is changed to 255.
fn changed(offset: usize) -> Option<(u8, usize)> {
    let mut page = ANSWERED;
    if let Some(byte) = page.get_mut(offset) {
        *byte = 255;
    }
    let mut view = blank::<Samples>();
    let fault = read(&page, &mut view).err()?;
    Some((fault.number(), fault.place()))
}

#[test]
fn one_byte_changed_at_every_place(rt: HostRuntime) {
    let records = [
        HEADER, SECTION, SECTION, SECTION, SECTION, SECTION, SECTION, ESTIMATE, ESTIMATE, ESTIMATE,
        ESTIMATE, ESTIMATE, ANSWER, STEP, STEP, STEP, END,
    ];
    let mut record = 0usize;
    for bytes in records {
        for (i, what) in bytes.iter().enumerate() {
            let offset = record.saturating_add(i);
            assert_eq!(rt; changed(offset), expected(*what, record), "at {offset}");
        }
        record = record.saturating_add(bytes.len());
    }
    assert_eq!(rt; record, ANSWERED.len());
}
