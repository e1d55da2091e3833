//! A network, by its questions.
ghost use Rattle.std.specs.Prelude.{◌≡◌, length};
ghost use Rattle.std.specs.List.{slice_get};
ghost use Rattle.faults.specs.declared.Side.TheVariants.{Forward, Backward};
ghost use Rattle.networks.specs.Nets.{Net, InRange, Roll, starts, starters};

use crate::section::Section;
use amounts::cost::Cost;
use faults::Side;

/// Every answer is the meaning's; no question refuses or changes it.
pub trait Network<C: Cost> {
    ghost meaning: { Self → Net C.Section };

    /// How many stations there are. The whole meaning is in range.
    // Kept: a clause and no law, so that an implementation may owe the range to what it keeps true of itself.
    fn stations(&self) -> usize
        ensures count { result ≡ (meaning self.now).stations }
        ensures range { InRange C.Cost.section_range (meaning self.now) };

    fn sections(&self) -> usize
        ensures { result ≡ length (meaning self.now).sections };

    fn launcher(&self) -> usize
        ensures { result ≡ (meaning self.now).launcher };

    fn trap(&self) -> usize
        ensures { result ≡ (meaning self.now).trap };

    /// The numbered section, absent where there is none.
    fn section(&self, number: usize) -> Option<Section<C::Section>>
        ensures exact { result ≡ slice_get (meaning self.now).sections number };

    /// The number of the k-th section to which a side comes at the station, from 0 and in rising number, shut ones too.
    /// The list asked is rising, has every such section, and no other.
    fn touching(&self, side: Side, station: usize, k: usize) -> Option<usize>
        ensures exact { result ≡ slice_get (starters side (meaning self.now) station) k }
        ensures roll { Roll (starts side station) (meaning self.now).sections (starters side (meaning self.now) station) };

    /// The number of the k-th section that leaves the station.
    fn leaving(&self, station: usize, k: usize) -> Option<usize>
        ensures exact { result ≡ slice_get (starters Forward (meaning self.now) station) k }
        ensures roll { Roll (starts Forward station) (meaning self.now).sections (starters Forward (meaning self.now) station) }
    {
        self.touching(Side::Forward, station, k)
    }

    /// The number of the k-th section that enters it.
    fn entering(&self, station: usize, k: usize) -> Option<usize>
        ensures exact { result ≡ slice_get (starters Backward (meaning self.now) station) k }
        ensures roll { Roll (starts Backward station) (meaning self.now).sections (starters Backward (meaning self.now) station) }
    {
        self.touching(Side::Backward, station, k)
    }
}
