//! The answer of a search, as a page holds it.
ghost use Rattle.std.specs.Prelude.{◌≡◌};

/// How a search ended: with a route, or with none. The numbers are those of a page.
#[derive(Clone, Copy, Debug, PartialEq, Eq)]
pub enum Outcome {
    Found = 0,
    NoRoute = 1,
}

impl From<u8> for Outcome {
    ghost use Rattle.contents.specs.Content.{outcome_by};

    ghost from_gives = { λ number outcome. outcome ≡ outcome_by number };

    /// Any number but 0 reads as no route; a page that was read has none but 0 and 1.
    fn from(number: u8) -> Outcome {
        match number {
            0 => Outcome::Found,
            _ => Outcome::NoRoute,
        }
    }
}

/// A step of a route: a section, its ends, and the cost up to its end.
#[derive(Clone, Copy, Debug, PartialEq, Eq)]
pub struct Step<L> {
    pub section: usize,
    pub from: usize,
    pub to: usize,
    pub so_far: L,
}

/// An answer, with what is held of its steps.
#[derive(Clone, Copy)]
pub struct Answer<L, S> {
    pub run: u32,
    // Kept: beside cost and steps, as on the page; an answer of no route that has a cost or steps may be put in, and is
    // refused.
    pub outcome: Outcome,
    pub cost: L,
    pub taken: usize,
    pub steps: S,
}

/// An answer whose steps are only counted.
pub type Filed<L> = Answer<L, usize>;

/// An answer to be written, with its steps in a lent list.
pub type WholeAnswer<'a, L> = Answer<L, &'a [Step<L>]>;
