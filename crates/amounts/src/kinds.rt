//! The two kinds of cost: samples alone, and valve moves before samples.
ghost use Rattle.std.specs.Prelude.{◌≡◌, pos, refl};
ghost use Rattle.std.proofs.Math.IntN.{+ℤ_comm, +ℤ_assoc, +ℤ-neg_ℤ_cancel, -ℤ-+ℤ_cancel};
ghost use Rattle.amounts.specs.Kinds.{samples, samples_forms, samples_section, samples_estimate, moves, label, moves_worth, moves_forms, moves_estimate};
ghost use Rattle.std.proofs.Common.{inl, inr, ⊎_elim, arith, rules};
ghost use Rattle.std.proofs.lemmas.Int.{ints};
ghost use Rattle.std.proofs.lemmas.Bool.{cases_Bool};
ghost use Rattle.amounts.specs.Forms.{SectionRange};
ghost use Rattle.amounts.specs.Totals.{totals_samples, totals_moves};
ghost use Rattle.amounts.specs.Labels.{same, samples_in_range, samples_on_page, moves_in_range, moves_on_page};

use crate::cost::Cost;
use crate::forms::{LabelForm, PageCost, SectionForm};
use crate::limits::{SAMPLES, exact_difference, exact_sum, fit, in_field};

/// Kind 1: a signed number of samples.
pub struct Samples;

impl Cost for Samples {
    type Label = i64;

    type Section = u32;

    const ZERO: i64 = 0;

    ghost ZERO = { pos 0 };

    const KIND: u8 = 1;

    ghost KIND = { 1 };

    ghost ops = { samples };

    ghost worth = { pos };

    ghost section_range = { samples_section };

    ghost estimate_range = { samples_estimate };

    ghost zero = { refl };

    ghost lawful = { record {
      comm = +ℤ_comm;
      assoc = +ℤ_assoc;
      unit = λ a. omega (arith, ints);
      add_sub = +ℤ-neg_ℤ_cancel;
      sub_add = -ℤ-+ℤ_cancel;
      le_refl = λ a. Prim.grind (arith, ints);
      le_anti = λ a b h k. Prim.grind (arith, ints);
      le_trans = λ a b c h k. Prim.grind (arith, ints);
      le_total = λ a b. ⊎_elim inl (λ h. inr (Prim.grind (arith, ints))) (cases_Bool (samples.leb a b));
      le_plus = λ a b c h. Prim.grind (arith, ints);
      le_cancel = λ a b c h. Prim.grind (arith, ints);
      size_zero = refl;
      size_plus = λ a b. Prim.grind (arith, ints);
      size_minus = λ a b. Prim.grind (arith, ints);
    } };

    ghost ranges = { Prim.search rules };

    fn size(a: i64) -> u64 {
        a.unsigned_abs()
    }

    fn at_most(a: i64, b: i64) -> bool {
        a <= b
    }

    // Kept: each kind tests the limit in its own sum and difference; a body in the trait would need the unchecked sum as a
    // method, and that one a `requires`.
    fn sum(a: i64, b: i64) -> i64 {
        if fit(Self::size(a), Self::size(b)) {
            exact_sum(a, b)
        } else {
            Self::ZERO
        }
    }

    fn difference(a: i64, b: i64) -> i64 {
        if fit(Self::size(a), Self::size(b)) {
            exact_difference(a, b)
        } else {
            Self::ZERO
        }
    }

    fn worth(s: u32) -> i64 {
        i64::from(s)
    }
}

impl PageCost for Samples {
    ghost forms = { samples_forms };

    ghost sections = { Prim.search rules };

    ghost labels = { record {
      range = Prim.search rules;
      again = Prim.search rules;
      back = Prim.search rules;
      at_least_zero = Prim.search rules;
      in_range = samples_in_range;
      on_page = samples_on_page;
      zero_shown = refl;
    } };

    ghost kinds = { Prim.search rules };

    ghost totals = { totals_samples };

    fn parts(s: u32) -> SectionForm {
        SectionForm {
            moves: 0,
            samples: s,
        }
    }

    fn made(form: SectionForm) -> u32 {
        let SectionForm { moves: _, samples } = form;
        samples
    }

    fn shown(a: i64) -> Option<LabelForm> {
        let samples = in_field(a, SAMPLES)?;
        Some(LabelForm { moves: 0, samples })
    }

    fn told(form: LabelForm) -> Option<i64> {
        if form.moves == 0 && form.samples < SAMPLES {
            Some(form.samples as i64)
        } else {
            None
        }
    }
}

/// Kind 2: valve moves, and then samples.
pub struct Moves;

/// An amount in moves and samples, both signed, in the order of its fields: by moves, then by samples.
#[derive(Clone, Copy, Debug, PartialEq, Eq, PartialOrd, Ord)]
pub struct MovesLabel {
    pub moves: i64,
    pub samples: i64,
}

impl Cost for Moves {
    type Label = MovesLabel;

    type Section = SectionForm;

    const ZERO: MovesLabel = MovesLabel {
        moves: 0,
        samples: 0,
    };

    ghost ZERO = { label (pos 0) (pos 0) };

    const KIND: u8 = 2;

    ghost KIND = { 2 };

    ghost ops = { moves };

    ghost worth = { moves_worth };

    ghost section_range = { SectionRange };

    ghost estimate_range = { moves_estimate };

    ghost zero = { refl };

    ghost lawful = { record {
      comm = λ a b. same (omega (arith, ints)) (omega (arith, ints));
      assoc = λ a b c. same (omega (arith, ints)) (omega (arith, ints));
      unit = λ a. same (omega (arith, ints)) (omega (arith, ints));
      add_sub = λ a b. same (omega (arith, ints)) (omega (arith, ints));
      sub_add = λ a b. same (omega (arith, ints)) (omega (arith, ints));
      le_refl = λ a. Prim.grind (arith, ints);
      le_anti = λ a b h k. same (Prim.grind (arith, ints)) (Prim.grind (arith, ints));
      le_trans = λ a b c h k. Prim.grind (arith, ints);
      le_total = λ a b. ⊎_elim inl (λ h. inr (Prim.grind (arith, ints))) (cases_Bool (moves.leb a b));
      le_plus = λ a b c h. Prim.grind (arith, ints);
      le_cancel = λ a b c h. Prim.grind (arith, ints);
      size_zero = refl;
      size_plus = λ a b. Prim.grind (arith, ints);
      size_minus = λ a b. Prim.grind (arith, ints);
    } };

    ghost ranges = { Prim.search rules };

    fn size(a: MovesLabel) -> u64 {
        a.moves.unsigned_abs().max(a.samples.unsigned_abs())
    }

    fn at_most(a: MovesLabel, b: MovesLabel) -> bool {
        a <= b
    }

    fn sum(a: MovesLabel, b: MovesLabel) -> MovesLabel {
        if !fit(Self::size(a), Self::size(b)) {
            return Self::ZERO;
        }
        MovesLabel {
            moves: exact_sum(a.moves, b.moves),
            samples: exact_sum(a.samples, b.samples),
        }
    }

    fn difference(a: MovesLabel, b: MovesLabel) -> MovesLabel {
        if !fit(Self::size(a), Self::size(b)) {
            return Self::ZERO;
        }
        MovesLabel {
            moves: exact_difference(a.moves, b.moves),
            samples: exact_difference(a.samples, b.samples),
        }
    }

    fn worth(s: SectionForm) -> MovesLabel {
        MovesLabel {
            moves: i64::from(s.moves),
            samples: i64::from(s.samples),
        }
    }
}

impl PageCost for Moves {
    ghost forms = { moves_forms };

    ghost sections = { Prim.search rules };

    ghost labels = { record {
      range = Prim.search rules;
      again = Prim.search rules;
      back = Prim.search rules;
      at_least_zero = Prim.search rules;
      in_range = moves_in_range;
      on_page = moves_on_page;
      zero_shown = refl;
    } };

    ghost kinds = { Prim.search rules };

    ghost totals = { totals_moves };

    fn parts(s: SectionForm) -> SectionForm {
        s
    }

    fn made(form: SectionForm) -> SectionForm {
        form
    }

    fn shown(a: MovesLabel) -> Option<LabelForm> {
        let moves = u32::try_from(a.moves).ok()?;
        let samples = in_field(a.samples, SAMPLES)?;
        Some(LabelForm { moves, samples })
    }

    fn told(form: LabelForm) -> Option<MovesLabel> {
        if form.samples < SAMPLES {
            Some(MovesLabel {
                moves: i64::from(form.moves),
                samples: form.samples as i64,
            })
        } else {
            None
        }
    }
}
