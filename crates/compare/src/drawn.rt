//! Networks that are drawn by chance, and twin lines.
ghost use Rattle.std.specs.Prelude.{IfOk, ◌≤◌};

use crate::draws::Draws;
use crate::plan::{Amount, Pipe, Plan};
use amounts::forms::{PageCost, SectionForm};
use networks::network::Network;
use std::alloc::{AllocError, Global};
use twinline::twin_line::Drawing;

/// An amount of a section: often small or zero, so that ways are equal, and seldom as large as there can be.
fn amount<C: PageCost>(draws: &mut Draws) -> Amount {
    let moves = match draws.below(8) {
        _ if C::KIND == 1 => 0,
        0 => draws.below(1 << 16),
        1..4 => draws.below(3),
        _ => 0,
    };
    let samples = match draws.below(8) {
        0 => 0,
        1 => draws.below(1 << 32),
        2..5 => draws.below(4),
        _ => draws.below(1000),
    };
    Amount { moves, samples }
}

/// A section between two of so many stations, which may be one; now and then beside the section before it.
fn pipe<C: PageCost>(draws: &mut Draws, stations: usize, before: Option<&Pipe>) -> Pipe {
    let (from, to) = match before {
        Some(pipe) if draws.one_in(6) => (pipe.from, pipe.to),
        _ => (draws.index(stations), draws.index(stations)),
    };
    Pipe {
        from,
        to,
        amount: amount::<C>(draws),
        shut: draws.one_in(8),
    }
}

/// How many stations: mostly some dozens, now and then hundreds.
fn count(draws: &mut Draws) -> usize
    ensures { 1 ≤ result × result ≤ 300 }
{
    let most = if draws.one_in(30) { 300 } else { 30 };
    1 + draws.index(most)
}

/// A network, with two or three sections a station on average; now and then launcher and trap are one station.
pub fn network<C: PageCost>(heap: Global, draws: &mut Draws) -> Result<Plan, AllocError>
    ensures { IfOk result (λ p. 1 ≤ p.stations) }
{
    let stations = count(draws);
    let launcher = draws.index(stations);
    let trap = if draws.one_in(12) {
        launcher
    } else {
        draws.index(stations)
    };
    let mut pipes: Vec<Pipe> = Vec::new(heap);
    for _ in 0..draws.index(5 * stations) {
        let pipe = pipe::<C>(draws, stations, pipes.last());
        pipes.push(pipe)?;
    }
    Ok(Plan {
        stations,
        launcher,
        trap,
        pipes,
    })
}

/// A length in millimetres: often short.
fn length(draws: &mut Draws) -> u64 {
    let most = if draws.one_in(2) { 8_000_001 } else { 40 };
    draws.below(most)
}

/// A twin line, with crossovers at any spacing.
pub fn drawing(draws: &mut Draws) -> Drawing {
    let count = count(draws);
    Drawing {
        count,
        spacing: 1 + draws.index(count),
        upper: length(draws),
        lower: length(draws),
        crossover: length(draws),
        rate: if draws.one_in(2) { 512 } else { 256 },
    }
}

/// The plan of a network, section by section.
pub fn plan_of<C: PageCost, N: Network<C>>(heap: Global, net: &N) -> Result<Plan, AllocError> {
    let mut pipes = Vec::new(heap);
    for number in 0..net.sections() {
        let Some(section) = net.section(number) else {
            break;
        };
        let SectionForm { moves, samples } = C::parts(section.amount);
        pipes.push(Pipe {
            from: section.from,
            to: section.to,
            amount: Amount {
                moves: u64::from(moves),
                samples: u64::from(samples),
            },
            shut: section.shut,
        })?;
    }
    Ok(Plan {
        stations: net.stations(),
        launcher: net.launcher(),
        trap: net.trap(),
        pipes,
    })
}
