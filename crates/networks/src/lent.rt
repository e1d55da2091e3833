//! A network behind a reference is a network, and estimates behind one are estimates.
use crate::estimates::{Estimates, Pair};
use crate::network::Network;
use crate::section::Section;
use amounts::cost::Cost;
use faults::Side;

impl<'a, C: Cost, N: Network<C>> Network<C> for &'a N {
    ghost meaning = { λ n. N.Network.meaning n.now };

    fn stations(&self) -> usize {
        N::stations(*self)
    }

    fn sections(&self) -> usize {
        N::sections(*self)
    }

    fn launcher(&self) -> usize {
        N::launcher(*self)
    }

    fn trap(&self) -> usize {
        N::trap(*self)
    }

    fn section(&self, number: usize) -> Option<Section<C::Section>> {
        N::section(*self, number)
    }

    fn touching(&self, side: Side, station: usize, k: usize) -> Option<usize> {
        N::touching(*self, side, station, k)
    }
}

impl<'a, C: Cost, E: Estimates<C>> Estimates<C> for &'a E {
    ghost meaning = { λ e. E.Estimates.meaning e.now };

    fn count(&self) -> usize {
        E::count(*self)
    }

    fn pair(&self, station: usize) -> Option<Pair<C::Label>> {
        E::pair(*self, station)
    }
}
