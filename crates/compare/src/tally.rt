//! What is counted of networks.
use crate::beside::Known;
use crate::told::Told;
use amounts::forms::PageCost;
use std::fmt;

/// How many networks there are, how many of them agree, and how many have a route.
#[derive(Clone, Copy, Debug, Default, PartialEq, Eq)]
pub struct Tally {
    pub networks: usize,
    pub agree: usize,
    pub routes: usize,
}

impl Tally {
    /// Counts one network more, by what is told of it; where nothing is told, it does not agree.
    pub fn count<C: PageCost>(&mut self, known: Known<'_>, told: Option<&Told<C>>) {
        let agrees = match told {
            Some(told) => known.agrees::<C>(told),
            None => false,
        };
        self.networks = self.networks.saturating_add(1);
        self.agree = self.agree.saturating_add(usize::from(agrees));
        self.routes = self
            .routes
            .saturating_add(usize::from(known.least.is_some()));
    }

    /// Counts one network more that could not even be made.
    pub fn count_unmade(&mut self) {
        self.networks = self.networks.saturating_add(1);
    }

    /// Counts another tally's networks too.
    pub fn add(&mut self, other: Tally) {
        self.networks = self.networks.saturating_add(other.networks);
        self.agree = self.agree.saturating_add(other.agree);
        self.routes = self.routes.saturating_add(other.routes);
    }
}

impl fmt::Display for Tally {
    fn fmt<W: fmt::Write>(&self, f: &mut fmt::Formatter<W>) -> fmt::Result {
        let Tally {
            networks,
            agree,
            routes,
        } = *self;
        write!(
            f,
            "{networks} networks, {agree} agree, {routes} have a route"
        )
    }
}
