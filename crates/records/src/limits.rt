//! What the fields of a record are held against.
ghost use Rattle.std.specs.Prelude.{◌≡◌};
ghost use Rattle.amounts.specs.Forms.{moves_fit};
ghost use Rattle.records.specs.Values.{label_fits};

use amounts::cost::Cost;
use amounts::forms::LabelForm;
use amounts::kinds::Samples;
use amounts::limits::SAMPLES;

// Kept: `networks::blank` has this bound as a machine number; no crate below both speaks of stations.

/// The most stations of a page.
pub const MOST_STATIONS: u16 = 4096;

/// The most sections of a page.
pub const MOST_SECTIONS: u16 = 16384;

/// The most steps of an answer.
pub const MOST_STEPS: u16 = 4095;

/// The cost kind that is read for, and how many stations and sections there are.
#[derive(Clone, Copy)]
pub struct Limits {
    // Kept: a number, since kinds of cost are open: each gives a byte of its own.
    pub kind: u8,
    pub stations: u16,
    pub sections: u16,
}

impl Limits {
    /// Whether the cost kind may have so many moves: kind 1 has none.
    pub(crate) fn moves_fit(&self, moves: u32) -> bool
        ensures { result ≡ moves_fit self.now.kind moves }
    {
        self.kind != Samples::KIND || moves == 0
    }

    /// Whether the cost kind may have this amount as an estimate or a cost.
    pub(crate) fn label_fits(&self, form: LabelForm) -> bool
        ensures { result ≡ label_fits self.now.kind form }
    {
        self.moves_fit(form.moves) && form.samples < SAMPLES
    }
}
