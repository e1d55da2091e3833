//! A search: running, found, or without a route.
ghost use Rattle.std.specs.Prelude.{◌≡◌, ◌^◌, ◌<◌, ◌≤◌, length, List, Some, true, cond, None, is_some, option_map, IfOk, IfSome, OnOk};
ghost use Rattle.std.specs.Result.{result_err};
ghost use Rattle.optimality.specs.Search.{front, least_sum, floor, ended, gone_through, after};
ghost use Rattle.optimality.specs.Keys.{smaller};
ghost use Rattle.networks.specs.Nets.{InRange, starters};
ghost use Rattle.faults.specs.declared.Refusal.TheVariants.{ForeignSheet};
ghost use Rattle.faults.specs.declared.Side.TheVariants.{Forward, Backward};
ghost use Rattle.faults.specs.declared.Layer.TheVariants.{Search};
ghost use Rattle.faults.specs.Reasons.{FirstReason};
ghost use Rattle.optimality.specs.Problems.{Fair};
ghost use Rattle.search.specs.Claims.{Call, HasItsSheet, OpenStands, StepStands, BoundsStand, FinishStands};
ghost use Rattle.search.specs.Rules.{open_fault, OpenReason, StepRule, step_reasons, BoundsRule, bounds_reasons, finish_fault, FinishRule, finish_reasons};
ghost use Rattle.search.specs.Calls.{posed, problem, standing, Ready, unfinished, open_of, step_of, bounds_of, finish_of, search_fault};

use crate::dry::too_large;
use crate::fronts::{key_sum, least, smaller, twice, within};
use crate::opening::{first_ceiling, unfit, write_first};
use crate::sections::{put, spread};
use amounts::cost::Cost;
use faults::{Fault, Layer, Refusal, Side};
use networks::estimates::Estimates;
use networks::network::Network;
use optimality::sheet::{Ceiling, Front, Mark, Row};
use std::marker::PhantomData;

/// A label of at most this size leads to none that a row does not hold, along one section.
const LIGHT: u64 = (1 << 44) - (1 << 32);

/// A search that is under way. It is moved and never copied; its sheet is lent to each call.
#[derive(Drop)]
pub struct Running<C: Cost, N, E> {
    net: N,
    estimates: E,
    taken: usize,
    ceiling: Ceiling<C::Label>,
}

/// A search that found a route of least cost.
#[derive(Drop)]
pub struct Found<C: Cost, N, E> {
    net: N,
    estimates: E,
    taken: usize,
    cost: C::Label,
    meeting: usize,
}

/// A search that found that there is no route.
#[derive(Drop)]
pub struct NoRoute<C: Cost, N, E> {
    net: N,
    estimates: E,
    taken: usize,
    tag: PhantomData<C>,
}

/// What an accepted Finish gives.
#[derive(Drop)]
pub enum Finished<C: Cost, N, E> {
    Found(Found<C, N, E>),
    NoRoute(NoRoute<C, N, E>),
}

/// What a refused Open gives back.
#[derive(Drop)]
pub struct Unopened<N, E> {
    pub net: N,
    pub estimates: E,
    pub fault: Fault,
}

/// What a refused Finish gives back.
#[derive(Drop)]
pub struct Unfinished<C: Cost, N, E> {
    pub search: Running<C, N, E>,
    pub fault: Fault,
}

/// What is known of the least cost: twice every route's cost is at least the floor, and some route costs the ceiling.
#[derive(Clone, Copy, Debug, PartialEq, Eq)]
pub struct Bounds<L> {
    pub floor: Option<L>,
    pub ceiling: Ceiling<L>,
}

impl<C: Cost, N: Network<C>, E: Estimates<C>> Running<C, N, E> {
    /// A side's open station of least key.
    fn front(&self, own: &[Row<C>], side: Side) -> Option<Front<C::Label>>
        ensures exact { result ≡ front (problem C.Cost N.Network E.Estimates self.now) (standing self.now own.now) side }
        ensures ready { IfSome result (Ready (problem C.Cost N.Network E.Estimates self.now)) }
    {
        least::<C, E>(own, &self.estimates, side, self.net.stations())
    }

    /// The front that a step takes; none where the search is ended.
    fn next(&self, own: &[Row<C>], side: Side) -> Option<Front<C::Label>>
        ensures exact { result ≡ cond (ended (problem C.Cost N.Network E.Estimates self.now) (standing self.now own.now)) None (front (problem C.Cost N.Network E.Estimates self.now) (standing self.now own.now) side) }
        ensures ready { IfSome result (Ready (problem C.Cost N.Network E.Estimates self.now)) }
    {
        let forward = self.front(own, Side::Forward);
        let backward = self.front(own, Side::Backward);
        if within::<C>(twice::<C>(self.ceiling), key_sum::<C>(forward, backward)) {
            return None;
        }
        match side {
            Side::Forward => forward,
            Side::Backward => backward,
        }
    }

    /// The sum of the least keys; absent where a side has no open station.
    fn least_sum(&self, own: &[Row<C>]) -> Option<C::Label>
        ensures { result ≡ least_sum (problem C.Cost N.Network E.Estimates self.now) (standing self.now own.now) }
    {
        let forward = self.front(own, Side::Forward);
        let backward = self.front(own, Side::Backward);
        key_sum::<C>(forward, backward)
    }

    /// Whether the search is ended.
    fn ended(&self, own: &[Row<C>]) -> bool
        ensures { result ≡ ended (problem C.Cost N.Network E.Estimates self.now) (standing self.now own.now) }
    {
        within::<C>(twice::<C>(self.ceiling), self.least_sum(own))
    }

    /// The smaller of the sum of the least keys and twice the ceiling.
    fn floor(&self, own: &[Row<C>]) -> Option<C::Label>
        ensures { result ≡ floor (problem C.Cost N.Network E.Estimates self.now) (standing self.now own.now) }
    {
        smaller::<C>(self.least_sum(own), twice::<C>(self.ceiling))
    }

    /// Whether rows hold every label that taking the front would write.
    fn fits(&self, own: &[Row<C>], side: Side, front: &Front<C::Label>) -> bool
        requires range { InRange C.Cost.section_range (N.Network.meaning self.now.net) }
        requires long { (N.Network.meaning self.now.net).stations ≤ length own.now }
        requires inside { front.now.station < length own.now }
        requires held { C.Cost.ops.size front.now.label < 2 ^ 44 }
        ensures { result ≡ is_some (gone_through (problem C.Cost N.Network E.Estimates self.now) side front.now (standing self.now own.now)) }
    {
        if C::size(front.label) <= LIGHT {
            return true;
        }
        for k in 0..self.net.sections() {
            let Some(number) = self.net.touching(side, front.station, k) else {
                break;
            };
            if too_large::<C, N>(own, &self.net, side, front.station, front.label, k, number) {
                return false;
            }
        }
        true
    }

    /// Closes the front, and goes along its sections.
    fn take(&mut self, own: &mut [Row<C>], side: Side, front: Front<C::Label>)
        requires range { InRange C.Cost.section_range (N.Network.meaning self.old.net) }
        requires long { (N.Network.meaning self.old.net).stations ≤ length own.old }
        requires inside { front.station < length own.old }
        requires few { self.old.taken < 4096 }
        requires fits { is_some (gone_through (problem C.Cost N.Network E.Estimates self.old) side front (standing self.old own.old)) ≡ true }
        ensures exact { Some (standing self.new own.new) ≡ option_map (after (standing self.old own.old)) (gone_through (problem C.Cost N.Network E.Estimates self.old) side front (standing self.old own.old)) }
        ensures kept { (self.new.net ≡ self.old.net) × (self.new.estimates ≡ self.old.estimates) }
    {
        let mark = Mark {
            label: front.label,
            arrival: front.arrival,
            closed: true,
        };
        put::<C>(own, side, front.station, mark);
        self.ceiling = spread::<C, N>(
            own,
            &self.net,
            side,
            front.station,
            front.label,
            self.ceiling,
        );
        self.taken += 1;
    }

    /// Takes the open station of least key on a side, and goes along its sections. Turned down, it changes nothing.
    fn step(&mut self, sheet: &mut [Row<C>], side: Side) -> Result<(), Fault>
        ensures exact { record { answer = result; search = self.new; sheet = sheet.new } ≡ step_of C.Cost N.Network E.Estimates side self.old sheet.old }
    {
        let rows = sheet.len();
        let foreign = foreign(rows);
        let stations = self.net.stations();
        if rows < stations {
            return Err(foreign);
        }
        let (own, _) = sheet.split_at_mut(stations);
        let Some(front) = self.next(own, side) else {
            return Err(Layer::Search.fault(Refusal::Ended { taken: self.taken }));
        };
        if self.taken >= stations - 1 || !self.fits(own, side, &front) {
            return Err(foreign);
        }
        self.take(own, side, front);
        Ok(())
    }

    fn begin(net: N, estimates: E, sheet: &mut [Row<C>]) -> Result<Self, Unopened<N, E>>
        ensures { record { answer = result; sheet = sheet.new } ≡ open_of C.Cost N.Network E.Estimates net estimates sheet.old }
    {
        if let Some(refusal) = unfit::<C, N, E>(&net, &estimates, sheet.len()) {
            return Err(Unopened {
                net,
                estimates,
                fault: Layer::Search.fault(refusal),
            });
        }
        let (own, _) = sheet.split_at_mut(net.stations());
        write_first::<C, N>(own, &net);
        let ceiling = first_ceiling::<C>(net.launcher(), net.trap());
        Ok(Running {
            net,
            estimates,
            taken: 0,
            ceiling,
        })
    }

    fn known(&self, sheet: &[Row<C>]) -> Result<Bounds<C::Label>, Fault>
        ensures { result ≡ bounds_of C.Cost N.Network E.Estimates self.now sheet.now }
    {
        let Some(own) = sheet.get(..self.net.stations()) else {
            return Err(foreign(sheet.len()));
        };
        Ok(Bounds {
            floor: self.floor(own),
            ceiling: self.ceiling,
        })
    }

    /// Why the search cannot be finished.
    fn unfinished(&self, sheet: &[Row<C>]) -> Option<Fault>
        ensures { result ≡ unfinished (problem C.Cost N.Network E.Estimates self.now) (standing self.now sheet.now) }
    {
        let Some(own) = sheet.get(..self.net.stations()) else {
            return Some(foreign(sheet.len()));
        };
        if self.ended(own) {
            return None;
        }
        Some(Layer::Search.fault(Refusal::NotEnded { taken: self.taken }))
    }

    fn conclude(self, sheet: &[Row<C>]) -> Result<Finished<C, N, E>, Unfinished<C, N, E>>
        ensures { result ≡ finish_of C.Cost N.Network E.Estimates self sheet.now }
    {
        if let Some(fault) = self.unfinished(sheet) {
            return Err(Unfinished {
                search: self,
                fault,
            });
        }
        let Running {
            net,
            estimates,
            taken,
            ceiling,
        } = self;
        Ok(match ceiling {
            Ceiling::Met { amount, station } => Finished::Found(Found {
                net,
                estimates,
                taken,
                cost: amount,
                meeting: station,
            }),
            Ceiling::Absent => Finished::NoRoute(NoRoute {
                net,
                estimates,
                taken,
                tag: PhantomData,
            }),
        })
    }
}

/// Asks network and estimates for what they promise.
fn promised<C: Cost, N: Network<C>, E: Estimates<C>>(net: &N, estimates: &E)
    ensures { Fair (posed C.Cost N.Network E.Estimates net.now estimates.now) }
{
    net.stations();
    estimates.count();
}

impl<C: Cost, N: Network<C>, E: Estimates<C>> Running<C, N, E> {
    /// Opens a search over a sheet: the launcher is open forward, and the trap backward. Turned down, it gives network and
    /// estimates back, and writes nothing.
    pub fn open(net: N, estimates: E, sheet: &mut [Row<C>]) -> Result<Self, Unopened<N, E>>
        // The answer and the sheet, on every input.
        ensures exact { record { answer = result; sheet = sheet.new } ≡ open_of C.Cost N.Network E.Estimates net estimates sheet.old }
        // Accepted, the estimates are consistent and the search has its sheet to itself; turned down by 7, they break where it says.
        ensures stands { OpenStands C.Cost N.Network E.Estimates net estimates result sheet.new }
        // It is turned down for the first of its reasons that is so, and accepted where none is.
        ensures reasons { OpenReason (posed C.Cost N.Network E.Estimates net estimates) (length sheet.old) (open_fault result) }
    {
        promised::<C, N, E>(&net, &estimates);
        Running::begin(net, estimates, sheet)
    }

    /// Takes the open station of least key on a side, and goes along its sections. Turned down, it changes nothing.
    fn advance(&mut self, sheet: &mut [Row<C>], side: Side) -> Result<(), Fault>
        ensures exact { record { answer = result; search = self.new; sheet = sheet.new } ≡ step_of C.Cost N.Network E.Estimates side self.old sheet.old }
        ensures rule { OnOk result (StepRule (problem C.Cost N.Network E.Estimates self.old) side (standing self.old sheet.old) (standing self.new sheet.new)) }
        ensures reasons { FirstReason Search (step_reasons (problem C.Cost N.Network E.Estimates self.old) (standing self.old sheet.old) side) (result_err result) }
        ensures stands { (calls : List Call) → HasItsSheet C.Cost N.Network E.Estimates calls self.old sheet.old → StepStands C.Cost N.Network E.Estimates calls side self.old sheet.old result self.new sheet.new }
    {
        promised::<C, N, E>(&self.net, &self.estimates);
        self.step(sheet, side)
    }

    /// Takes the open station of least forward key, and goes along the sections that leave it.
    pub fn forward(&mut self, sheet: &mut [Row<C>]) -> Result<(), Fault>
        // The answer, the search and the sheet, on every input.
        ensures exact { record { answer = result; search = self.new; sheet = sheet.new } ≡ step_of C.Cost N.Network E.Estimates Forward self.old sheet.old }
        // Accepted, it takes the open station of least key, and changes what the rule says, and nothing else.
        ensures rule { OnOk result (StepRule (problem C.Cost N.Network E.Estimates self.old) Forward (standing self.old sheet.old) (standing self.new sheet.new)) }
        // It is turned down for the first of its reasons that is so, and accepted where none is.
        ensures reasons { FirstReason Search (step_reasons (problem C.Cost N.Network E.Estimates self.old) (standing self.old sheet.old) Forward) (result_err result) }
        // After any list of calls all that is claimed stands, before and after it, and only an ended search turns it down.
        ensures stands { (calls : List Call) → HasItsSheet C.Cost N.Network E.Estimates calls self.old sheet.old → StepStands C.Cost N.Network E.Estimates calls Forward self.old sheet.old result self.new sheet.new }
    {
        self.advance(sheet, Side::Forward)
    }

    /// Takes the open station of least backward key, and goes along the sections that enter it.
    pub fn backward(&mut self, sheet: &mut [Row<C>]) -> Result<(), Fault>
        // The answer, the search and the sheet, on every input.
        ensures exact { record { answer = result; search = self.new; sheet = sheet.new } ≡ step_of C.Cost N.Network E.Estimates Backward self.old sheet.old }
        // Accepted, it takes the open station of least key, and changes what the rule says, and nothing else.
        ensures rule { OnOk result (StepRule (problem C.Cost N.Network E.Estimates self.old) Backward (standing self.old sheet.old) (standing self.new sheet.new)) }
        // It is turned down for the first of its reasons that is so, and accepted where none is.
        ensures reasons { FirstReason Search (step_reasons (problem C.Cost N.Network E.Estimates self.old) (standing self.old sheet.old) Backward) (result_err result) }
        // After any list of calls all that is claimed stands, before and after it, and only an ended search turns it down.
        ensures stands { (calls : List Call) → HasItsSheet C.Cost N.Network E.Estimates calls self.old sheet.old → StepStands C.Cost N.Network E.Estimates calls Backward self.old sheet.old result self.new sheet.new }
    {
        self.advance(sheet, Side::Backward)
    }

    /// What is known of the least cost.
    pub fn bounds(&self, sheet: &[Row<C>]) -> Result<Bounds<C::Label>, Fault>
        // The answer, on every input.
        ensures exact { result ≡ bounds_of C.Cost N.Network E.Estimates self.now sheet.now }
        // Accepted, it answers the floor and the ceiling; turned down, the sheet has too few rows.
        ensures rule { IfOk result (BoundsRule (problem C.Cost N.Network E.Estimates self.now) (standing self.now sheet.now)) }
        ensures reasons { FirstReason Search (bounds_reasons (problem C.Cost N.Network E.Estimates self.now) (standing self.now sheet.now)) (result_err result) }
        // After any list of calls, twice every route's cost is at least the floor, and some route costs the ceiling.
        ensures stands { (calls : List Call) → HasItsSheet C.Cost N.Network E.Estimates calls self.now sheet.now → BoundsStand C.Cost N.Network E.Estimates calls self.now sheet.now result }
    {
        promised::<C, N, E>(&self.net, &self.estimates);
        self.known(sheet)
    }

    /// Ends a search: it found a route, or there is none. Turned down, it gives the search back.
    pub fn finish(self, sheet: &[Row<C>]) -> Result<Finished<C, N, E>, Unfinished<C, N, E>>
        // The answer, on every input.
        ensures exact { result ≡ finish_of C.Cost N.Network E.Estimates self sheet.now }
        // Accepted, the search is ended, and what is told is the search's; turned down, it is for the first reason that is so.
        ensures rule { IfOk result (FinishRule (problem C.Cost N.Network E.Estimates self) self sheet.now) }
        ensures reasons { FirstReason Search (finish_reasons (problem C.Cost N.Network E.Estimates self) (standing self sheet.now)) (finish_fault result) }
        // After any list of calls it answers the cost of a route that no route undercuts, or none exactly if there is none;
        // it tells the ceiling and the taken count of the search, and all that stood before stands.
        ensures stands { (calls : List Call) → HasItsSheet C.Cost N.Network E.Estimates calls self sheet.now → FinishStands C.Cost N.Network E.Estimates calls self sheet.now result }
    {
        promised::<C, N, E>(&self.net, &self.estimates);
        self.conclude(sheet)
    }
}

impl<C: Cost, N, E> Found<C, N, E> {
    /// The network that was searched.
    pub fn network(&self) -> &N
        ensures { result.now ≡ self.now.net }
    {
        &self.net
    }

    /// The estimates that were gone by.
    pub fn estimates(&self) -> &E
        ensures { result.now ≡ self.now.estimates }
    {
        &self.estimates
    }

    /// The station at which the two halves of the route meet.
    pub fn meeting(&self) -> usize
        ensures { result ≡ self.now.meeting }
    {
        self.meeting
    }

    /// The cost of the route.
    pub fn cost(&self) -> C::Label
        ensures { result ≡ self.now.cost }
    {
        self.cost
    }

    /// How many stations were taken, both ends together.
    pub fn taken(&self) -> usize
        ensures { result ≡ self.now.taken }
    {
        self.taken
    }
}

impl<C: Cost, N, E> NoRoute<C, N, E> {
    /// The network that was searched.
    pub fn network(&self) -> &N
        ensures { result.now ≡ self.now.net }
    {
        &self.net
    }

    /// The estimates that were gone by.
    pub fn estimates(&self) -> &E
        ensures { result.now ≡ self.now.estimates }
    {
        &self.estimates
    }

    /// How many stations were taken, both ends together.
    pub fn taken(&self) -> usize
        ensures { result ≡ self.now.taken }
    {
        self.taken
    }
}

/// The fault of a refused Open, passed on whole.
impl<N: Drop, E: Drop> From<Unopened<N, E>> for Fault {
    ghost from_gives = { λ refused fault. fault ≡ refused.fault };

    fn from(refused: Unopened<N, E>) -> Fault {
        refused.fault
    }
}

/// The fault of a refused Finish, passed on whole.
impl<C: Cost, N: Drop, E: Drop> From<Unfinished<C, N, E>> for Fault {
    ghost from_gives = { λ refused fault. fault ≡ refused.fault };

    fn from(refused: Unfinished<C, N, E>) -> Fault {
        refused.fault
    }
}

/// The fault of a sheet of so many rows that is not the search's.
fn foreign(rows: usize) -> Fault
    ensures { result ≡ search_fault (ForeignSheet rows) }
{
    Layer::Search.fault(Refusal::ForeignSheet { rows })
}
