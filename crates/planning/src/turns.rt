//! A search that goes forward and backward in turn.
ghost use Rattle.std.specs.Prelude.{◌≡◌};
ghost use Rattle.faults.specs.declared.Side.TheVariants.{Forward};
ghost use Rattle.search.specs.Calls.{problem, standing, step_of};
ghost use Rattle.planning.specs.Turns.{in_turn, searched_of};
ghost use Rattle.planning.specs.Claims.{SearchStands};

use amounts::cost::Cost;
use faults::{Fault, Side};
use networks::estimates::Estimates;
use networks::network::Network;
use optimality::sheet::Row;
use search::running::{Finished, Running};

fn step<C: Cost, N: Network<C>, E: Estimates<C>>(
    search: &mut Running<C, N, E>,
    sheet: &mut [Row<C>],
    side: Side,
) -> Result<(), Fault>
    ensures { record { answer = result; search = search.new; sheet = sheet.new } ≡ step_of C.Cost N.Network E.Estimates side search.old sheet.old }
{
    match side {
        Side::Forward => search.forward(sheet),
        Side::Backward => search.backward(sheet),
    }
}

/// Steps forward and backward in turn, so many times at most, until a step is turned down.
fn step_in_turn<C: Cost, N: Network<C>, E: Estimates<C>>(
    search: &mut Running<C, N, E>,
    sheet: &mut [Row<C>],
    turns: usize,
)
    ensures exact { standing search.new sheet.new ≡ in_turn (problem C.Cost N.Network E.Estimates search.old) turns Forward (standing search.old sheet.old) }
    ensures kept { (search.new.net ≡ search.old.net) × (search.new.estimates ≡ search.old.estimates) }
{
    let mut side = Side::Forward;
    for turn in 0..turns {
        if step::<C, N, E>(search, sheet, side).is_err() {
            return;
        }
        side = side.opposite();
    }
}

/// Opens a search over a network and estimates, steps it forward and backward in turn until it is ended, and finishes
/// it. The sheet then is as Route and File ask for it. Turned down, the sheet stands.
pub fn search_in_turn<C: Cost, N: Network<C> + Drop, E: Estimates<C> + Drop>(
    net: N,
    estimates: E,
    sheet: &mut [Row<C>],
) -> Result<Finished<C, N, E>, Fault>
    // The answer and the sheet, on every input.
    ensures exact { record { answer = result; sheet = sheet.new } ≡ searched_of C.Cost N.Network E.Estimates net estimates sheet.old }
    // What it answers is of least cost, and the taken count is that of the accepted steps; it is turned down only where
    // sheet or estimates do not suit the network.
    ensures stands { SearchStands C.Cost N.Network E.Estimates net estimates sheet.old result sheet.new }
{
    let stations = net.stations();
    estimates.count();
    let mut search = Running::open(net, estimates, sheet)?;
    step_in_turn::<C, N, E>(&mut search, sheet, stations);
    Ok(search.finish(sheet)?)
}
