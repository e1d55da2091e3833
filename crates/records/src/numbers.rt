//! Amounts in bytes, high byte first.
ghost use Rattle.std.specs.Prelude.{◌≡◌};
ghost use Rattle.amounts.specs.Forms.{section_form, label_form};
ghost use Rattle.records.specs.Bytes.{number_at, bytes_of};

use amounts::forms::{LabelForm, SectionForm};

/// A section's amount: moves in two bytes, samples in four.
pub(crate) fn section_of(bytes: [u8; 6]) -> SectionForm
    ensures { result ≡ section_form (number_at 2 bytes 0) (number_at 4 bytes 2) }
{
    let [m1, m0, s3, s2, s1, s0] = bytes;
    SectionForm {
        moves: u16::from_be_bytes([m1, m0]),
        samples: u32::from_be_bytes([s3, s2, s1, s0]),
    }
}

// Each number in an array of its own: LLVM writes those of one array byte by byte.
pub(crate) fn section_bytes(form: SectionForm) -> ([u8; 2], [u8; 4])
    ensures { result ≡ (bytes_of 2 form.moves, bytes_of 4 form.samples) }
{
    (form.moves.to_be_bytes(), form.samples.to_be_bytes())
}

/// Any other amount: moves in four bytes, samples in six.
pub(crate) fn label_of(bytes: [u8; 10]) -> LabelForm
    ensures { result ≡ label_form (number_at 4 bytes 0) (number_at 6 bytes 4) }
{
    let [m3, m2, m1, m0, s5, s4, s3, s2, s1, s0] = bytes;
    LabelForm {
        moves: u32::from_be_bytes([m3, m2, m1, m0]),
        samples: u64::from_be_bytes([0, 0, s5, s4, s3, s2, s1, s0]),
    }
}

/// Of the samples, the low six bytes.
pub(crate) fn label_bytes(form: LabelForm) -> ([u8; 4], [u8; 6])
    ensures { result ≡ (bytes_of 4 form.moves, bytes_of 6 form.samples) }
{
    let [_, _, s5, s4, s3, s2, s1, s0] = form.samples.to_be_bytes();
    (form.moves.to_be_bytes(), [s5, s4, s3, s2, s1, s0])
}
