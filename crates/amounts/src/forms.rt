//! Amounts as they stand on a page, and the kinds of cost that have such forms.
ghost use Rattle.std.specs.Prelude.{◌≡◌};
ghost use Rattle.amounts.specs.Forms.{Forms, SectionLaws, LabelLaws, KindLaws, TotalsOnPage, told_section};

use crate::cost::Cost;

// Kept: two structs; one over the types of its fields would be one type of two numbers to a clause, and a label's form
// could stand where a section's is meant.

/// A section's amount as it stands on a page.
#[derive(Clone, Copy, Debug, PartialEq, Eq)]
pub struct SectionForm {
    pub moves: u16,
    pub samples: u32,
}

/// Any other amount as it stands on a page, its samples below 2^44.
#[derive(Clone, Copy, Debug, Default, PartialEq, Eq)]
pub struct LabelForm {
    pub moves: u32,
    pub samples: u64,
}

/// A kind of cost whose amounts stand on a page.
pub trait PageCost: Cost {
    /// The forms of its amounts, and the amounts that forms tell.
    ghost forms: { Forms Self.Label Self.Section };

    fn parts(s: Self::Section) -> SectionForm
        ensures { result ≡ forms.parts s };

    /// The amount of so many moves and samples; a kind that counts no moves leaves them out.
    fn made(form: SectionForm) -> Self::Section
        ensures { result ≡ forms.made form };

    fn shown(a: Self::Label) -> Option<LabelForm>
        ensures { result ≡ forms.shown a };

    fn told(form: LabelForm) -> Option<Self::Label>
        ensures { result ≡ forms.told form };

    /// The amount that a page gives a section: absent where the kind has none of this form.
    fn told_section(form: SectionForm) -> Option<Self::Section>
        ensures { result ≡ told_section forms form }
    {
        let section = Self::made(form);
        (Self::parts(section) == form).then_some(section)
    }

    ghost sections: { SectionLaws forms Self.section_range };

    ghost labels: { LabelLaws Self.ops forms Self.estimate_range };

    /// Which forms there are, by the kind's byte.
    ghost kinds: { KindLaws Self.KIND forms };

    ghost totals: { TotalsOnPage Self.ops Self.worth Self.section_range forms };
}
