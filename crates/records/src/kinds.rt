//! The kinds of records.
ghost use Rattle.records.specs.Layout.{header_shape, section_shape, estimate_shape, answer_shape, step_shape, end_shape};
ghost use Rattle.records.specs.Laws.{header_laws, section_laws, estimate_laws, answer_laws, step_laws, end_laws};
ghost use Rattle.std.specs.Prelude.{refl};

use crate::limits::{Limits, MOST_SECTIONS, MOST_STATIONS, MOST_STEPS};
use crate::numbers::{label_bytes, label_of, section_bytes, section_of};
use crate::record::Record;
use amounts::forms::{LabelForm, SectionForm};

/// The body of an S record.
#[derive(Clone, Copy)]
pub struct SectionRecord {
    // Kept: a number, since a page may show any, and one that is not allowed must be held to be refused.
    pub state: u8,
    pub from: u16,
    pub to: u16,
    pub amount: SectionForm,
}

impl SectionRecord {
    pub const SIZE: usize = 12;
}

impl Record<{ SectionRecord::SIZE }> for SectionRecord {
    ghost shape = { section_shape };

    ghost KIND = { 0x53 };

    ghost lawful = { section_laws };

    ghost kinded = { refl };

    ghost sized = { refl };

    const KIND: u8 = 0x53;

    fn front(bytes: &[u8]) -> Option<SectionRecord> {
        let [_, state, f1, f0, t1, t0, m1, m0, s3, s2, s1, s0, ..] = bytes else {
            return None;
        };
        Some(SectionRecord {
            state: *state,
            from: u16::from_be_bytes([*f1, *f0]),
            to: u16::from_be_bytes([*t1, *t0]),
            amount: section_of([*m1, *m0, *s3, *s2, *s1, *s0]),
        })
    }

    fn keeps(&self, limits: &Limits) -> bool {
        self.state <= 1
            && self.from < limits.stations
            && self.to < limits.stations
            && limits.moves_fit(u32::from(self.amount.moves))
    }

    fn bytes(&self) -> [u8; SectionRecord::SIZE] {
        let [state] = self.state.to_be_bytes();
        let [f1, f0] = self.from.to_be_bytes();
        let [t1, t0] = self.to.to_be_bytes();
        let ([m1, m0], [s3, s2, s1, s0]) = section_bytes(self.amount);
        [Self::KIND, state, f1, f0, t1, t0, m1, m0, s3, s2, s1, s0]
    }
}

/// The body of an H record.
#[derive(Clone, Copy)]
pub struct HeaderRecord {
    // Kept: a number, since a page may show any, and one that is not allowed must be held to be refused.
    pub kind: u8,
    pub stations: u16,
    pub sections: u16,
    pub launcher: u16,
    pub trap: u16,
}

impl HeaderRecord {
    pub const SIZE: usize = 10;
}

impl Record<{ HeaderRecord::SIZE }> for HeaderRecord {
    ghost shape = { header_shape };

    ghost KIND = { 0x48 };

    ghost lawful = { header_laws };

    ghost kinded = { refl };

    ghost sized = { refl };

    const KIND: u8 = 0x48;

    fn front(bytes: &[u8]) -> Option<HeaderRecord> {
        let [_, kind, n1, n0, s1, s0, l1, l0, t1, t0, ..] = bytes else {
            return None;
        };
        Some(HeaderRecord {
            kind: *kind,
            stations: u16::from_be_bytes([*n1, *n0]),
            sections: u16::from_be_bytes([*s1, *s0]),
            launcher: u16::from_be_bytes([*l1, *l0]),
            trap: u16::from_be_bytes([*t1, *t0]),
        })
    }

    fn keeps(&self, limits: &Limits) -> bool {
        self.kind == limits.kind
            && 1 <= self.stations
            && self.stations <= MOST_STATIONS
            && self.sections <= MOST_SECTIONS
            && self.launcher < self.stations
            && self.trap < self.stations
    }

    fn bytes(&self) -> [u8; HeaderRecord::SIZE] {
        let [kind] = self.kind.to_be_bytes();
        let [n1, n0] = self.stations.to_be_bytes();
        let [s1, s0] = self.sections.to_be_bytes();
        let [l1, l0] = self.launcher.to_be_bytes();
        let [t1, t0] = self.trap.to_be_bytes();
        [Self::KIND, kind, n1, n0, s1, s0, l1, l0, t1, t0]
    }
}

/// The body of an E record.
#[derive(Clone, Copy)]
pub struct EstimateRecord {
    pub forward: LabelForm,
    pub backward: LabelForm,
}

impl EstimateRecord {
    pub const SIZE: usize = 21;
}

impl Record<{ EstimateRecord::SIZE }> for EstimateRecord {
    ghost shape = { estimate_shape };

    ghost KIND = { 0x45 };

    ghost lawful = { estimate_laws };

    ghost kinded = { refl };

    ghost sized = { refl };

    const KIND: u8 = 0x45;

    fn front(bytes: &[u8]) -> Option<EstimateRecord> {
        let [_, m3, m2, m1, m0, s5, s4, s3, s2, s1, s0, rest @ ..] = bytes else {
            return None;
        };
        let [n3, n2, n1, n0, t5, t4, t3, t2, t1, t0, ..] = rest else {
            return None;
        };
        Some(EstimateRecord {
            forward: label_of([*m3, *m2, *m1, *m0, *s5, *s4, *s3, *s2, *s1, *s0]),
            backward: label_of([*n3, *n2, *n1, *n0, *t5, *t4, *t3, *t2, *t1, *t0]),
        })
    }

    fn keeps(&self, limits: &Limits) -> bool {
        limits.label_fits(self.forward) && limits.label_fits(self.backward)
    }

    fn bytes(&self) -> [u8; EstimateRecord::SIZE] {
        let kind = Self::KIND;
        let ([m3, m2, m1, m0], [s5, s4, s3, s2, s1, s0]) = label_bytes(self.forward);
        let ([n3, n2, n1, n0], [t5, t4, t3, t2, t1, t0]) = label_bytes(self.backward);
        [
            kind, m3, m2, m1, m0, s5, s4, s3, s2, s1, s0, n3, n2, n1, n0, t5, t4, t3, t2, t1, t0,
        ]
    }
}

/// The body of an A record.
#[derive(Clone, Copy)]
pub struct AnswerRecord {
    pub run: u32,
    // Kept: a number, since a page may show any, and one that is not allowed must be held to be refused.
    pub outcome: u8,
    pub cost: LabelForm,
    pub steps: u16,
    pub taken: u16,
}

impl AnswerRecord {
    pub const SIZE: usize = 20;
}

impl Record<{ AnswerRecord::SIZE }> for AnswerRecord {
    ghost shape = { answer_shape };

    ghost KIND = { 0x41 };

    ghost lawful = { answer_laws };

    ghost kinded = { refl };

    ghost sized = { refl };

    const KIND: u8 = 0x41;

    fn front(bytes: &[u8]) -> Option<AnswerRecord> {
        let [_, r3, r2, r1, r0, outcome, rest @ ..] = bytes else {
            return None;
        };
        let [m3, m2, m1, m0, s5, s4, s3, s2, s1, s0, n1, n0, t1, t0, ..] = rest else {
            return None;
        };
        Some(AnswerRecord {
            run: u32::from_be_bytes([*r3, *r2, *r1, *r0]),
            outcome: *outcome,
            cost: label_of([*m3, *m2, *m1, *m0, *s5, *s4, *s3, *s2, *s1, *s0]),
            steps: u16::from_be_bytes([*n1, *n0]),
            taken: u16::from_be_bytes([*t1, *t0]),
        })
    }

    fn keeps(&self, limits: &Limits) -> bool {
        self.outcome <= 1
            && limits.label_fits(self.cost)
            && self.steps <= MOST_STEPS
            && self.taken < limits.stations
            && (self.outcome == 0 || self.cost == LabelForm::default() && self.steps == 0)
    }

    fn bytes(&self) -> [u8; AnswerRecord::SIZE] {
        let kind = Self::KIND;
        let [r3, r2, r1, r0] = self.run.to_be_bytes();
        let [outcome] = self.outcome.to_be_bytes();
        let ([m3, m2, m1, m0], [s5, s4, s3, s2, s1, s0]) = label_bytes(self.cost);
        let [n1, n0] = self.steps.to_be_bytes();
        let [t1, t0] = self.taken.to_be_bytes();
        [
            kind, r3, r2, r1, r0, outcome, m3, m2, m1, m0, s5, s4, s3, s2, s1, s0, n1, n0, t1, t0,
        ]
    }
}

/// The body of a P record.
#[derive(Clone, Copy)]
pub struct StepRecord {
    pub section: u16,
    pub so_far: LabelForm,
}

impl StepRecord {
    pub const SIZE: usize = 13;
}

impl Record<{ StepRecord::SIZE }> for StepRecord {
    ghost shape = { step_shape };

    ghost KIND = { 0x50 };

    ghost lawful = { step_laws };

    ghost kinded = { refl };

    ghost sized = { refl };

    const KIND: u8 = 0x50;

    fn front(bytes: &[u8]) -> Option<StepRecord> {
        let [_, n1, n0, m3, m2, m1, m0, s5, s4, s3, s2, s1, s0, ..] = bytes else {
            return None;
        };
        Some(StepRecord {
            section: u16::from_be_bytes([*n1, *n0]),
            so_far: label_of([*m3, *m2, *m1, *m0, *s5, *s4, *s3, *s2, *s1, *s0]),
        })
    }

    fn keeps(&self, limits: &Limits) -> bool {
        self.section < limits.sections && limits.label_fits(self.so_far)
    }

    fn bytes(&self) -> [u8; StepRecord::SIZE] {
        let [n1, n0] = self.section.to_be_bytes();
        let ([m3, m2, m1, m0], [s5, s4, s3, s2, s1, s0]) = label_bytes(self.so_far);
        [Self::KIND, n1, n0, m3, m2, m1, m0, s5, s4, s3, s2, s1, s0]
    }
}

/// A Z record has no body.
#[derive(Clone, Copy)]
pub struct EndRecord;

impl EndRecord {
    pub const SIZE: usize = 1;
}

impl Record<{ EndRecord::SIZE }> for EndRecord {
    ghost shape = { end_shape };

    ghost KIND = { 0x5a };

    ghost lawful = { end_laws };

    ghost kinded = { refl };

    ghost sized = { refl };

    const KIND: u8 = 0x5a;

    fn front(bytes: &[u8]) -> Option<EndRecord> {
        let [_, ..] = bytes else {
            return None;
        };
        Some(EndRecord)
    }

    fn keeps(&self, _limits: &Limits) -> bool {
        true
    }

    fn bytes(&self) -> [u8; EndRecord::SIZE] {
        [Self::KIND]
    }
}
