//! What a call that is turned down says: which refusal, which layer, and where.
#![tactic(auto)]

ghost use Rattle.std.specs.Prelude.{◌≡◌, [], ◌∷◌, Some};
ghost use Rattle.faults.specs.Faults.{number_of, place_of, side_number, opposite, fault_of, network_fault, ranged_from, refused_line};
ghost use Rattle.faults.specs.declared.Refusal.TheVariants.{ParameterOutOfRange};

use std::fmt;

/// The two ends of a search: forward from the launcher, backward from the trap.
#[derive(Clone, Copy, Debug, PartialEq, Eq)]
pub enum Side {
    Forward = 1,
    Backward = 2,
}

impl Side {
    /// The other end.
    pub fn opposite(self) -> Side
        ensures { result ≡ opposite self }
    {
        match self {
            Side::Forward => Side::Backward,
            Side::Backward => Side::Forward,
        }
    }

    /// 1 for forward, 2 for backward.
    pub fn number(self) -> u8
        ensures { result ≡ side_number self }
    {
        self as u8
    }
}

/// The layer that turned a call down.
#[derive(Clone, Copy, Debug, PartialEq, Eq)]
pub enum Layer {
    Page,
    Network,
    Search,
    Filing,
}

impl Layer {
    /// This layer's fault for a refusal.
    pub fn fault(self, refusal: Refusal) -> Fault
        ensures { result ≡ fault_of self refusal }
    {
        Fault {
            refusal,
            layer: self,
        }
    }
}

/// Why a call was turned down, a case for each refusal, with its place.
#[derive(Clone, Copy, Debug, PartialEq, Eq)]
pub enum Refusal {
    PageEnds { length: usize },
    UnexpectedKind { offset: usize },
    FieldOutOfRange { offset: usize },
    TrailingBytes { offset: usize },
    TooFewRows { rows: usize },
    EstimateCount { count: usize },
    Inconsistent { section: usize, side: Side },
    Ended { taken: usize },
    NotEnded { taken: usize },
    ListTooShort { places: usize },
    PageTooShort { needed: usize },
    ParameterOutOfRange { parameter: usize },
    ShutInFull { kept: usize },
    NoSuchSection { number: usize },
    ForeignSheet { rows: usize },
    NotJoined { step: usize },
}

/// A refusal and its layer. A caller above passes it on whole.
#[derive(Clone, Copy, Debug, PartialEq, Eq)]
pub struct Fault {
    pub refusal: Refusal,
    pub layer: Layer,
}

impl Fault {
    /// The refusal's number, 1 to 16.
    // Kept: a match, since a case that has a place has no number to cast to.
    pub fn number(&self) -> u8
        ensures { result ≡ number_of self.now.refusal }
    {
        match self.refusal {
            Refusal::PageEnds { .. } => 1,
            Refusal::UnexpectedKind { .. } => 2,
            Refusal::FieldOutOfRange { .. } => 3,
            Refusal::TrailingBytes { .. } => 4,
            Refusal::TooFewRows { .. } => 5,
            Refusal::EstimateCount { .. } => 6,
            Refusal::Inconsistent { .. } => 7,
            Refusal::Ended { .. } => 8,
            Refusal::NotEnded { .. } => 9,
            Refusal::ListTooShort { .. } => 10,
            Refusal::PageTooShort { .. } => 11,
            Refusal::ParameterOutOfRange { .. } => 12,
            Refusal::ShutInFull { .. } => 13,
            Refusal::NoSuchSection { .. } => 14,
            Refusal::ForeignSheet { .. } => 15,
            Refusal::NotJoined { .. } => 16,
        }
    }

    /// The refusal's place; of inconsistent estimates, the section.
    pub fn place(&self) -> usize
        ensures { result ≡ place_of self.now.refusal }
    {
        match self.refusal {
            Refusal::PageEnds { length } => length,
            Refusal::UnexpectedKind { offset }
            | Refusal::FieldOutOfRange { offset }
            | Refusal::TrailingBytes { offset } => offset,
            Refusal::TooFewRows { rows } | Refusal::ForeignSheet { rows } => rows,
            Refusal::EstimateCount { count } => count,
            Refusal::Inconsistent { section, .. } => section,
            Refusal::Ended { taken } | Refusal::NotEnded { taken } => taken,
            Refusal::ListTooShort { places } => places,
            Refusal::PageTooShort { needed } => needed,
            Refusal::ParameterOutOfRange { parameter } => parameter,
            Refusal::ShutInFull { kept } => kept,
            Refusal::NoSuchSection { number } => number,
            Refusal::NotJoined { step } => step,
        }
    }
}

/// The fault of a call's first parameter that breaks its range, counted from 0.
pub fn out_of_range(parameter: usize) -> Fault
    ensures { result ≡ network_fault (ParameterOutOfRange parameter) }
{
    Layer::Network.fault(Refusal::ParameterOutOfRange { parameter })
}

/// Whether a call's parameter, counted from 0, passes the test of its range.
pub fn in_range(parameter: usize, passes: bool) -> Result<(), Fault>
    ensures { result ≡ ranged_from parameter (passes ∷ []) tt }
{
    if passes {
        Ok(())
    } else {
        Err(out_of_range(parameter))
    }
}

/// As every program prints it: `refused`, the number and the place.
impl fmt::Display for Fault {
    ghost output = { λ f. Some (refused_line f) };

    fn fmt<W: fmt::Write>(&self, f: &mut fmt::Formatter<W>) -> fmt::Result {
        let number = self.number();
        let place = self.place();
        write!(f, "refused {number} {place}")
    }
}
