//! Putting records on a page, one or a run of them.
ghost use Rattle.std.specs.Prelude.{◌≡◌, ℕ, ◌+◌, ◌*◌, ◌<◌, ◌≤◌, List, length};
ghost use Rattle.records.specs.Bytes.{overlay};
ghost use Rattle.records.specs.Shapes.{size_of, encoded, encoded_run};
ghost use Rattle.writing.specs.Rows.{MadeOneByOne};

use records::record::Record;

// Kept: page and offset apart; a struct that holds both was tried, and got no proof of what the page holds when it is
// let go.

/// Puts a record's bytes over those of the page from an offset on, and answers where they end.
pub(crate) fn put<R: Record<SIZE>, const SIZE: usize>(page: &mut [u8], at: usize, body: &R) -> usize
    requires { at + size_of R.Record.shape ≤ length page.old }
    ensures end { result ≡ at + size_of R.Record.shape }
    ensures page { page.new ≡ overlay page.old at (encoded R.Record.shape body.now) }
{
    let end = at + SIZE;
    page[at..end].copy_from_slice(&body.bytes());
    end
}

/// Puts so many records over the bytes of the page, one after another from an offset on, and answers where they end.
pub(crate) fn put_run<R: Record<SIZE> + Drop, F: Fn(usize) -> Option<R>, const SIZE: usize>(
    page: &mut [u8],
    at: usize,
    count: usize,
    make: F,
) -> usize
    requires room { at + size_of R.Record.shape * count ≤ length page.old }
    requires each { (k : ℕ) → k < count → F.pre make k }
    ensures { (rs : List R) → MadeOneByOne (F.post make) count rs → (result ≡ at + size_of R.Record.shape * count) × (page.new ≡ overlay page.old at (encoded_run R.Record.shape rs)) }
{
    let mut end = at;
    for k in 0..count {
        let Some(body) = make(k) else {
            return end;
        };
        end = put(page, end, &body);
    }
    end
}
