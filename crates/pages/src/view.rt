//! A view over the bytes of an accepted page.
ghost use Rattle.std.specs.Prelude.{◌≡◌, true, is_ok};
ghost use Rattle.contents.specs.Checks.{header_of, check_page, all_bytes};

use amounts::cost::Cost;
use records::kinds::HeaderRecord;
use std::alloc::AllocError;
use std::marker::PhantomData;

// Kept: clauses name its `bytes`, since a type that is Copy and has a lifetime can have no model.

/// The page's own bytes and its header, for a kind of cost.
pub struct PageView<'a, C: Cost> {
    pub(crate) bytes: &'a [u8],
    pub(crate) header: HeaderRecord,
    pub(crate) tag: PhantomData<C>,
    ghost bytes_fit: { all_bytes bytes.now ≡ true },
    ghost headed: { header ≡ header_of bytes.now },
    ghost accepted: { is_ok (check_page header.kind bytes.now) ≡ true },
}

// Kept: by hand, since a derive is refused at a generic struct with ghost fields.
impl<C: Cost> Clone for PageView<'_, C> {
    ghost is_clone = { λ v w. w ≡ v };

    ghost is_infallible = { λ _. Unit {0} };

    fn clone(&self) -> Result<Self, AllocError> {
        Ok(*self)
    }
}

impl<C: Cost> Copy for PageView<'_, C> {}
