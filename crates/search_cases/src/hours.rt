//! A kind of cost that no page holds, and a network in it.
ghost use Rattle.std.specs.Prelude.{◌^◌, ◌<◌, false, [], ◌∷◌, pos, unsigned_abs, refl};
ghost use Rattle.std.proofs.Common.{rules};
ghost use Rattle.amounts.specs.Kinds.{samples};
ghost use Rattle.amounts.specs.contracts.kinds.SamplesCost.TheImpl.Laws.{lawful-law};

use amounts::cost::Cost;
use amounts::kinds::Samples;
use faults::Side;
use networks::network::Network;
use networks::section::Section;

/// Kind 7: whole crew hours, which add up as samples do. Its amounts have no forms on a page, and an estimate may be
/// below zero.
pub(crate) struct Hours;

impl Cost for Hours {
    type Label = i64;

    type Section = u16;

    const ZERO: i64 = 0;

    ghost ZERO = { pos 0 };

    const KIND: u8 = 7;

    ghost KIND = { 7 };

    ghost ops = { samples };

    ghost worth = { pos };

    ghost section_range = { λ s. s < 2 ^ 16 };

    ghost estimate_range = { λ a. unsigned_abs a < 1000 };

    ghost zero = { refl };

    ghost lawful = { lawful-law };

    ghost ranges = { Prim.search rules };

    fn size(a: i64) -> u64 {
        Samples::size(a)
    }

    fn at_most(a: i64, b: i64) -> bool {
        Samples::at_most(a, b)
    }

    fn sum(a: i64, b: i64) -> i64 {
        Samples::sum(a, b)
    }

    fn difference(a: i64, b: i64) -> i64 {
        Samples::difference(a, b)
    }

    fn worth(s: u16) -> i64 {
        i64::from(s)
    }
}

/// Two sections from the launcher 0 to the trap 1, of 5 and of 3 hours.
#[derive(Drop)]
pub(crate) struct TwoWays;

impl Network<Hours> for TwoWays {
    ghost meaning = { λ _. record {
      stations = 2;
      launcher = 0;
      trap = 1;
      sections = record { from = 0; to = 1; amount = 5; shut = false } ∷ record { from = 0; to = 1; amount = 3; shut = false } ∷ [];
    } };

    fn stations(&self) -> usize {
        2
    }

    fn sections(&self) -> usize {
        2
    }

    fn launcher(&self) -> usize {
        0
    }

    fn trap(&self) -> usize {
        1
    }

    fn section(&self, number: usize) -> Option<Section<u16>> {
        let amount = match number {
            0 => 5,
            1 => 3,
            _ => return None,
        };
        Some(Section {
            from: 0,
            to: 1,
            amount,
            shut: false,
        })
    }

    fn touching(&self, side: Side, station: usize, k: usize) -> Option<usize> {
        let tail = match side {
            Side::Forward => 0,
            Side::Backward => 1,
        };
        (station == tail && k < 2).then_some(k)
    }
}
