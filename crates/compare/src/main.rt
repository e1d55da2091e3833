//! Searches some hundreds of networks, beside an unrelated method, and prints how many agree; and compares wrong answers,
//! none of which may.
#![tactic(auto)]

mod along;
mod beside;
mod drawn;
mod draws;
mod estimates;
mod families;
mod paged;
mod plan;
mod planted;
mod tally;
mod told;
mod worked;
mod wrong;

use crate::draws::Draws;
use crate::families::{Family, Kind, Shape};
use crate::plan::Amount;
use crate::planted::compared_wrong;
use crate::tally::Tally;
use crate::worked::worked_cost;
use crate::wrong::Wrong;
use amounts::kinds::{Moves, Samples};
use std::io;

/// A twin line whose cost is known by hand, in either kind of cost.
fn run_worked(rt: &HostRuntime, draws: &mut Draws) -> io::Result<()> {
    for kind in [Kind::Samples, Kind::Moves] {
        let cost = match kind {
            Kind::Samples => worked_cost::<Samples>(rt.alloc(), draws)?,
            Kind::Moves => worked_cost::<Moves>(rt.alloc(), draws)?,
        };
        let kind = kind.word();
        match cost {
            Some(Amount { moves, samples }) => {
                println!(rt; "worked twin line in {kind}: cost {moves} {samples}, agrees")?;
            }
            None => println!(rt; "worked twin line in {kind}: does not agree")?,
        }
    }
    Ok(())
}

/// The families of networks.
fn run_families(rt: &HostRuntime, draws: &mut Draws) -> io::Result<()> {
    let mut total = Tally::default();
    for shape in [Shape::TwinLine, Shape::Page] {
        for kind in [Kind::Samples, Kind::Moves] {
            for shut_in in [false, true] {
                let family = Family {
                    kind,
                    shape,
                    shut_in,
                };
                let tally = family.tally(rt.alloc(), draws)?;
                println!(rt; "{family}: {tally}")?;
                total.add(tally);
            }
        }
    }
    println!(rt; "all: {total}")
}

/// The sorts of wrong answers.
fn run_planted(rt: &HostRuntime, draws: &mut Draws) -> io::Result<()> {
    let mut total = Tally::default();
    for wrong in Wrong::ALL {
        let sort = compared_wrong(rt.alloc(), wrong, draws)?;
        println!(rt; "{wrong}: {sort}")?;
        total.add(sort);
    }
    println!(rt; "planted wrong: {total}")
}

fn run(rt: &HostRuntime) -> io::Result<()> {
    let mut draws = Draws::new(1);
    run_worked(rt, &mut draws)?;
    run_families(rt, &mut draws)?;
    run_planted(rt, &mut draws)
}

fn main(rt: HostRuntime) -> io::Result<()> {
    run(&rt)
}
