//! A layer over any network that shuts some of its sections.
ghost use Rattle.std.specs.Prelude.{◌≡◌, ◌≤◌, [], length};
ghost use Rattle.std.specs.List.{slice_get};
ghost use Rattle.std.specs.Option.{option_map};
ghost use Rattle.std.specs.Result.{result_err};
ghost use Rattle.faults.specs.Reasons.{FirstReason};
ghost use Rattle.faults.specs.declared.Layer.TheVariants as layer;
ghost use Rattle.networks.specs.Shut.{EachOnce, has, shut_in, shut_if, shutting, shutting_reasons, KeptAlso};

use crate::network::Network;
use crate::section::Section;
use amounts::cost::Cost;
use arrayvec::ArrayVec;
use faults::{Fault, Layer, Refusal, Side};

/// The most sections that a layer shuts.
pub const ROOM: usize = 64;

/// A network, and the numbers of the sections that are shut over it.
#[derive(Drop)]
pub struct ShutIn<N> {
    below: N,
    kept: ArrayVec<usize, ROOM>,
    ghost within: { length kept.items ≤ 64 },
    ghost once: { EachOnce kept.items },
}

impl<N> ShutIn<N> {
    /// Shuts nothing yet.
    pub fn new(below: N) -> Self
        ensures below { result.below ≡ below }
        ensures kept { result.kept.items ≡ [] }
    {
        ShutIn {
            below,
            kept: ArrayVec::new(),
        }
    }

    /// The numbers that are kept, in the order in which they came.
    pub fn kept(&self) -> &[usize]
        ensures value { result.now ≡ self.now.kept.items }
        ensures few { length self.now.kept.items ≤ 64 }
        ensures once { EachOnce self.now.kept.items }
    {
        self.kept.as_slice()
    }

    /// Shuts one section more; a number that is kept already is kept once. Refused, it changes nothing.
    pub fn shut<C: Cost>(&mut self, number: usize) -> Result<(), Fault>
    where
        N: Network<C>,
        ensures left { record { answer = result; kept = self.new.kept.items } ≡ shutting (N.Network.meaning self.old.below) self.old.kept.items number }
        ensures below { self.new.below ≡ self.old.below }
        ensures reasons { FirstReason layer.Network (shutting_reasons (N.Network.meaning self.old.below) self.old.kept.items number) (result_err result) }
        ensures also { KeptAlso number result self.old.kept.items self.new.kept.items }
    {
        if number >= self.below.sections() {
            return Err(Layer::Network.fault(Refusal::NoSuchSection { number }));
        }
        if self.kept.contains(&number) {
            return Ok(());
        }
        if self.kept.is_full() {
            return Err(Layer::Network.fault(Refusal::ShutInFull { kept: ROOM }));
        }
        self.kept.push(number);
        Ok(())
    }
}

impl<C: Cost, N: Network<C>> Network<C> for ShutIn<N> {
    ghost meaning = { λ s. shut_in s.kept.items (N.Network.meaning s.below) };

    fn stations(&self) -> usize {
        self.below.stations()
    }

    fn sections(&self) -> usize {
        self.below.sections()
    }

    fn launcher(&self) -> usize {
        self.below.launcher()
    }

    fn trap(&self) -> usize {
        self.below.trap()
    }

    /// The section below, and shut too where its number is kept.
    fn section(&self, number: usize) -> Option<Section<C::Section>>
        ensures exact { result ≡ slice_get (shut_in self.now.kept.items (N.Network.meaning self.now.below)).sections number }
        ensures shut { result ≡ option_map (shut_if (has self.now.kept.items number)) (slice_get (N.Network.meaning self.now.below).sections number) }
    {
        let section = self.below.section(number)?;
        let kept = self.kept.contains(&number);
        Some(Section {
            shut: kept || section.shut,
            ..section
        })
    }

    fn touching(&self, side: Side, station: usize, k: usize) -> Option<usize> {
        self.below.touching(side, station, k)
    }
}
