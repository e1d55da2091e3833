//! A section of pipe.
ghost use Rattle.std.specs.Prelude.{◌≡◌};
ghost use Rattle.networks.specs.Nets.{tail, head};

use faults::Side;

/// A directed section between two stations, with its amount, open or shut.
#[derive(Clone, Copy, Debug, PartialEq, Eq)]
pub struct Section<A> {
    pub from: usize,
    pub to: usize,
    pub amount: A,
    pub shut: bool,
}

impl<A> Section<A> {
    /// The station at which a side comes to the section: the one it leaves forward, the one it enters backward.
    pub fn tail(&self, side: Side) -> usize
        ensures { result ≡ tail side self.now }
    {
        match side {
            Side::Forward => self.from,
            Side::Backward => self.to,
        }
    }

    /// The station to which a side goes along the section.
    pub fn head(&self, side: Side) -> usize
        ensures { result ≡ head side self.now }
    {
        self.tail(side.opposite())
    }
}
