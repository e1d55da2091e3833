//! The sheet of a search, and its ceiling.
ghost use Rattle.std.specs.Prelude.{◌≡◌, Option};
ghost use Rattle.optimality.specs.Sheets.{blank_row, mark_on, with_mark};

use amounts::cost::Cost;
use faults::Side;

/// What a side has written at a station: a label, the section by which it came there, absent where the search was
/// opened there, and whether the station is closed; until then it is open.
#[derive(Clone, Copy, Debug, PartialEq, Eq)]
pub struct Mark<L> {
    pub label: L,
    pub arrival: Option<usize>,
    pub closed: bool,
}

/// A station's marks. A side that has none has not labelled the station.
#[derive(Drop)]
pub struct Row<C: Cost> {
    pub forward: Option<Mark<C::Label>>,
    pub backward: Option<Mark<C::Label>>,
}

/// The cost of the best route so far, and the station where its two halves meet.
#[derive(Clone, Copy, Debug, PartialEq, Eq)]
pub enum Ceiling<L> {
    Absent,
    Met { amount: L, station: usize },
}

/// An open station of a side, with its key.
#[derive(Clone, Copy, Debug, PartialEq, Eq)]
pub struct Front<L> {
    pub station: usize,
    pub key: L,
    pub label: L,
    pub arrival: Option<usize>,
}

impl<C: Cost> Row<C> {
    /// A row of a station that neither side has labelled.
    pub fn blank() -> Self
        ensures { result ≡ blank_row }
    {
        Row {
            forward: None,
            backward: None,
        }
    }

    /// A side's mark.
    pub fn mark(&self, side: Side) -> Option<Mark<C::Label>>
        ensures { result ≡ mark_on side self.now }
    {
        match side {
            Side::Forward => self.forward,
            Side::Backward => self.backward,
        }
    }

    /// Writes a side's mark.
    pub fn write(&mut self, side: Side, mark: Option<Mark<C::Label>>)
        ensures { self.new ≡ with_mark side mark self.old }
    {
        match side {
            Side::Forward => self.forward = mark,
            Side::Backward => self.backward = mark,
        }
    }
}
