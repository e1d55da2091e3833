//! What a kind of cost gives.
ghost use Rattle.std.specs.Prelude.{◌≡◌, ℕ};
ghost use Rattle.amounts.specs.Amount.{Ops, Laws, SectionFit, RangeLaws, computed};

/// A kind of cost: its amounts, and what is computed of them. A search asks for no more than this.
pub trait Cost {
    /// An amount, also below zero.
    type Label: Copy;

    /// A section's amount.
    type Section: Copy;

    /// Zero; a law below says that it is that of `ops`.
    const ZERO: Self::Label;

    ghost ZERO: { Self.Label };

    /// The byte of this kind.
    const KIND: u8;

    ghost KIND: { ℕ };

    /// Zero, sum, difference, order and size, without limit.
    ghost ops: { Ops Self.Label };

    /// A section's amount as a label.
    ghost worth: { Self.Section → Self.Label };

    /// Which amounts a section may have, and which an estimate may be; a law below says how small these are.
    ghost section_range: { Self.Section → Type 0 };

    ghost estimate_range: { Self.Label → Type 0 };

    fn size(a: Self::Label) -> u64
        ensures { result ≡ ops.size a };

    fn at_most(a: Self::Label, b: Self::Label) -> bool
        ensures { result ≡ ops.leb a b };

    /// The sum, or zero past the limit.
    fn sum(a: Self::Label, b: Self::Label) -> Self::Label
        ensures { result ≡ (computed ops).plus a b };

    /// The difference, or zero past the limit.
    fn difference(a: Self::Label, b: Self::Label) -> Self::Label
        ensures { result ≡ (computed ops).minus a b };

    fn worth(s: Self::Section) -> Self::Label
        ensures exact { result ≡ worth s }
        ensures fit { SectionFit ops result };

    ghost zero: { ZERO ≡ ops.zero };

    ghost lawful: { Laws ops };

    ghost ranges: { RangeLaws ops worth section_range estimate_range };
}
