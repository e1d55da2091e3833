//! How much is read of a page.
ghost use Rattle.std.specs.Prelude.{◌≡◌, IfSome, IfOk, vec_items};
ghost use Rattle.showing.specs.Reading.{first_bytes};

use std::alloc::Global;
use std::io;
use std::io::Read;

/// The most bytes that are read of a page.
const MOST: u64 = 16_384;

/// The first bytes of any reader, which are read as a page.
pub fn first_bytes<R: Read + Drop>(heap: Global, reader: R) -> io::Result<Vec<u8>>
    ensures { IfSome (R.remaining reader) (λ bytes. IfOk result (λ page. vec_items page ≡ first_bytes bytes)) }
{
    let mut page = Vec::new(heap);
    reader.take(MOST).read_to_end(&mut page)?;
    Ok(page)
}
