//! What the words on the command line ask for.
ghost use Rattle.std.specs.Prelude.{◌≡◌};
ghost use Rattle.std.specs.Result.{result_ok};
ghost use Rattle.twin.specs.Report.{kind_by, asked_by};

use twinline::twin_line::Drawing;

/// The kind of cost that the line is worked out in.
#[derive(Clone, Copy, Debug, PartialEq, Eq)]
pub enum Kind {
    Samples,
    Moves,
}

/// A number that names no kind.
#[derive(Clone, Copy, Debug, PartialEq, Eq)]
pub struct UnknownKind;

impl TryFrom<u64> for Kind {
    type Error = UnknownKind;

    ghost try_from_gives = { λ number result. result_ok result ≡ kind_by number };

    fn try_from(number: u64) -> Result<Kind, UnknownKind> {
        match number {
            1 => Ok(Kind::Samples),
            2 => Ok(Kind::Moves),
            _ => Err(UnknownKind),
        }
    }
}

#[derive(Clone, Copy, Debug, PartialEq, Eq)]
pub struct Asked {
    pub kind: Kind,
    pub drawing: Drawing,
}

impl Asked {
    /// Kind, count, spacing, upper, lower, crossover and rate; absent where a word is missing or extra, or the kind is not 1 or 2.
    pub fn by(words: &[u64]) -> Option<Asked>
        ensures { result ≡ asked_by words.now }
    {
        let &[kind, count, spacing, upper, lower, crossover, rate] = words else {
            return None;
        };
        let kind = Kind::try_from(kind).ok()?;
        // Kept: a usize has 64 bits here, and try_from would add a refusal that no word meets.
        let drawing = Drawing {
            count: count as usize,
            spacing: spacing as usize,
            upper,
            lower,
            crossover,
            rate,
        };
        Some(Asked { kind, drawing })
    }
}
