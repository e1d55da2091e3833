//! Records where they are due, one after another.
ghost use Rattle.std.specs.Prelude.{◌≡◌, ◌-◌, length, drop};
ghost use Rattle.records.specs.Due.{due_record, due_run};

use crate::limits::Limits;
use crate::record::Record;
use faults::{Fault, Layer, Refusal};

/// The bytes from an offset on: none where they end before.
pub fn bytes_from(bytes: &[u8], at: usize) -> &[u8]
    ensures { result.now ≡ drop at bytes.now }
{
    bytes.get(at..).unwrap_or(&[])
}

/// What is left of a page of `length` bytes, and what its records are held against.
#[derive(Clone, Copy)]
pub struct Rest<'a> {
    pub length: usize,
    pub bytes: &'a [u8],
    pub limits: Limits,
}

impl<'a> Rest<'a> {
    /// The offset at which it begins.
    pub fn at(&self) -> usize
        ensures { result ≡ self.now.length - length self.now.bytes.now }
    {
        self.length.saturating_sub(self.bytes.len())
    }

    /// What is left behind so many bytes.
    pub fn behind(&self, count: usize) -> Rest<'a>
        ensures bytes { result.bytes.now ≡ drop count self.now.bytes.now }
        ensures length { result.length ≡ self.now.length }
        ensures limits { result.limits ≡ self.now.limits }
    {
        Rest {
            bytes: bytes_from(self.bytes, count),
            ..*self
        }
    }

    /// The record that is due at the front.
    pub fn due<R: Record<SIZE> + Drop, const SIZE: usize>(&self) -> Result<R, Fault>
        ensures { result ≡ due_record R.Record.shape self.now.limits self.now.length self.now.bytes.now }
    {
        let offset = self.at();
        let ends = Layer::Page.fault(Refusal::PageEnds {
            length: self.length,
        });
        let [kind, ..] = self.bytes else {
            return Err(ends);
        };
        if *kind != R::KIND {
            return Err(Layer::Page.fault(Refusal::UnexpectedKind { offset }));
        }
        let record = R::front(self.bytes).ok_or(ends)?;
        if !record.keeps(&self.limits) {
            return Err(Layer::Page.fault(Refusal::FieldOutOfRange { offset }));
        }
        Ok(record)
    }

    /// Whether so many records are there, one after another.
    pub fn due_run<R: Record<SIZE> + Drop, const SIZE: usize>(
        &self,
        count: u16,
    ) -> Result<(), Fault>
        ensures { result ≡ due_run R.Record.shape self.now.limits self.now.length count self.now.bytes.now }
    {
        let mut rest = *self;
        for _ in 0..count {
            let _: R = rest.due()?;
            rest = rest.behind(SIZE);
        }
        Ok(())
    }
}
