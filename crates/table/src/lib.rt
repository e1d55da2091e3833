//! Worked cases: what the calls answer over one network of five stations, as one table.
#![tactic(auto)]

ghost use Rattle.table.specs.Table.{WorkedCases};

use amounts::cost::Cost;
use amounts::forms::PageCost;
use amounts::kinds::{Moves, Samples};
use networks::estimates::Estimates;
use networks::network::Network;

/// The calls answer what the table says, whatever network and estimates mean what is drawn there.
pub fn worked_cases_stand<N, E, M, F>()
where
    N: Network<Samples>,
    E: Estimates<Samples>,
    M: Network<Moves>,
    F: Estimates<Moves>,
    ensures { WorkedCases ⟦<Samples as Cost>⟧ ⟦<Samples as PageCost>⟧.forms N.Network E.Estimates ⟦<Moves as Cost>⟧ M.Network F.Estimates }
{}
