//! Reading a page.
ghost use Rattle.std.specs.Prelude.{◌≡◌, Ok, Err};
ghost use Rattle.std.specs.Result.{result_err};
ghost use Rattle.faults.specs.declared.Layer.TheVariants.{Page};
ghost use Rattle.faults.specs.Reasons.{FirstReason};
ghost use Rattle.contents.specs.Checks.{check_page, blank_page};
ghost use Rattle.contents.specs.PageReasons.{page_reasons};
ghost use Rattle.contents.specs.Content.{content_of, blank_content};
ghost use Rattle.contents.specs.Again.{Again};

use crate::check::check_page;
use crate::view::PageView;
use amounts::forms::PageCost;
use faults::Fault;
use records::kinds::HeaderRecord;
use std::marker::PhantomData;

/// The page of one blank station.
static BLANK: [u8; 32] = [
    0x48, 1, 0, 1, 0, 0, 0, 0, 0, 0, 0x45, 0, 0, 0, 0, 0, 0, 0, 0, 0, 0, 0, 0, 0, 0, 0, 0, 0, 0, 0,
    0, 0x5a,
];

/// The view of one blank station, for any kind: no section, zero estimates, no answer.
pub fn blank<'a, C: PageCost>() -> PageView<'a, C>
    ensures bytes { result.bytes.now ≡ blank_page }
    ensures means { content_of C.Cost C.forms result.bytes.now ≡ blank_content C.Cost.ops.zero }
{
    PageView {
        bytes: &BLANK,
        header: HeaderRecord {
            kind: 1,
            stations: 1,
            sections: 0,
            launcher: 0,
            trap: 0,
        },
        tag: PhantomData,
    }
}

/// Fills a view that the caller holds; refused, the view stands as it was.
/// A refusal is that of the first record, in the page's order, at which something is wrong.
/// An accepted page is the bytes of what its view means, so no two accepted pages mean the same.
pub fn read<'a, C: PageCost>(page: &'a [u8], view: &mut PageView<'a, C>) -> Result<(), Fault>
    ensures answer { result ≡ check_page C.Cost.KIND page.now }
    ensures reasons { FirstReason Page (page_reasons C.Cost.KIND page.now) (result_err result) }
    ensures filled { elim result [ Ok _ ↦ view.new.bytes.now ≡ page.now | Err _ ↦ view.new ≡ view.old ] }
    ensures again { elim result [ Ok _ ↦ Again C.Cost C.forms page.now | Err _ ↦ Unit {0} ] }
{
    let header = check_page::<C>(page)?;
    *view = PageView {
        bytes: page,
        header,
        tag: PhantomData,
    };
    Ok(())
}
