//! A network as a plain list of sections, and the least costs by the method of Bellman and Ford.
ghost use Rattle.std.specs.Prelude.{◌≡◌, IfOk, vec_len};

use std::alloc::{AllocError, Global};

/// Valve moves, and then samples.
#[derive(Clone, Copy, Debug, PartialEq, Eq, PartialOrd, Ord)]
pub struct Amount {
    pub moves: u64,
    pub samples: u64,
}

impl Amount {
    pub const ZERO: Amount = Amount {
        moves: 0,
        samples: 0,
    };

    pub fn plus(self, other: Amount) -> Amount {
        Amount {
            moves: self.moves.saturating_add(other.moves),
            samples: self.samples.saturating_add(other.samples),
        }
    }

    pub fn half(self) -> Amount {
        Amount {
            moves: self.moves / 2,
            samples: self.samples / 2,
        }
    }
}

/// A section.
#[derive(Clone, Copy, Debug, PartialEq, Eq)]
pub struct Pipe {
    pub from: usize,
    pub to: usize,
    pub amount: Amount,
    pub shut: bool,
}

/// A network.
#[derive(Debug, Drop)]
pub struct Plan {
    pub stations: usize,
    pub launcher: usize,
    pub trap: usize,
    pub pipes: Vec<Pipe>,
}

/// Lowers the amount at the section's end, where the way along the section is less.
fn relax(least: &mut [Option<Amount>], pipe: &Pipe) {
    if pipe.shut {
        return;
    }
    let Some(&Some(near)) = least.get(pipe.from) else {
        return;
    };
    let candidate = near.plus(pipe.amount);
    let Some(far) = least.get_mut(pipe.to) else {
        return;
    };
    if far.is_none_or(|amount| candidate < amount) {
        *far = Some(candidate);
    }
}

impl Plan {
    /// The same with every section the other way round, from the trap to the launcher.
    pub fn turned(&self, heap: Global) -> Result<Plan, AllocError>
        ensures { IfOk result (λ p. p.stations ≡ self.now.stations) }
    {
        let mut pipes = Vec::new(heap);
        for pipe in &self.pipes {
            pipes.push(Pipe {
                from: pipe.to,
                to: pipe.from,
                ..*pipe
            })?;
        }
        Ok(Plan {
            stations: self.stations,
            launcher: self.trap,
            trap: self.launcher,
            pipes,
        })
    }

    /// The least amount from the launcher to each station; absent where no open sections lead there.
    pub fn least(&self, heap: Global) -> Result<Vec<Option<Amount>>, AllocError>
        ensures { IfOk result (λ v. vec_len v ≡ self.now.stations) }
    {
        let mut least = vec![in heap; None; self.stations]?;
        if let Some(first) = least.get_mut(self.launcher) {
            *first = Some(Amount::ZERO);
        }
        for _ in 1..self.stations {
            for pipe in &self.pipes {
                relax(&mut least, pipe);
            }
        }
        Ok(least)
    }
}
