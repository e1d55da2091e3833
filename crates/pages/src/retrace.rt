//! Whether the answer on a page holds.
ghost use Rattle.std.specs.Prelude.{◌≡◌, true, ◌↔◌, length};
ghost use Rattle.std.specs.List.{slice_get};
ghost use Rattle.contents.specs.Content.{steps_in, net_of, answer_of};
ghost use Rattle.contents.specs.Retracing.{RetracedIn, retraced, walks, same as same_as, step_right};

use crate::view::PageView;
use amounts::cost::Cost;
use amounts::forms::PageCost;
use contents::answer::{Outcome, Step};
use networks::network::Network;

/// Whether two amounts are one.
// Kept: by the order, since labels need have no `==`; a bound for one would ask more of every kind.
fn same<C: Cost>(a: C::Label, b: C::Label) -> bool
    ensures { result ≡ same_as C.Cost a b }
{
    C::at_most(a, b) && C::at_most(b, a)
}

impl<C: PageCost> PageView<'_, C> {
    /// Whether a step's section is open and starts at the station, and its cost so far is right.
    fn right(&self, station: usize, cost: C::Label, step: Step<C::Label>) -> bool
        ensures { result ≡ step_right C.Cost station cost step (slice_get (net_of C.Cost C.forms self.now.bytes.now).sections step.section) }
    {
        let Some(section) = self.section(step.section) else {
            return false;
        };
        !section.shut
            && section.from == station
            && same::<C>(C::sum(cost, C::worth(section.amount)), step.so_far)
    }

    /// Whether the answer's steps, from the launcher on, are a route whose every cost is right.
    fn walk(&self, steps: usize, total: C::Label) -> bool
        requires { steps ≡ length (steps_in (answer_of C.Cost C.forms self.now.bytes.now)) }
        ensures { result ≡ walks C.Cost (net_of C.Cost C.forms self.now.bytes.now) (net_of C.Cost C.forms self.now.bytes.now).launcher C.Cost.ops.zero total (steps_in (answer_of C.Cost C.forms self.now.bytes.now)) }
    {
        let mut station = self.launcher();
        let mut cost = C::ZERO;
        // Kept: a view gives its steps by number; a fold would carry the same two values in a tuple.
        for k in 0..steps {
            let Some(step) = self.step(k) else {
                return false;
            };
            if !self.right(station, cost, step) {
                return false;
            }
            station = step.to;
            cost = step.so_far;
        }
        station == self.trap() && same::<C>(cost, total)
    }

    fn holds(&self) -> bool
        ensures { result ≡ retraced C.Cost (net_of C.Cost C.forms self.now.bytes.now) (answer_of C.Cost C.forms self.now.bytes.now) }
    {
        let Some(answer) = self.answer() else {
            return false;
        };
        match answer.outcome {
            Outcome::Found => self.walk(answer.steps, answer.cost),
            Outcome::NoRoute => false,
        }
    }

    /// Whether the page has an answer with a route, its steps are a route of the network from launcher to trap
    /// through open sections, and every cost that it shows is right.
    pub fn retrace(&self) -> bool
        ensures exact { result ≡ retraced C.Cost (net_of C.Cost C.forms self.now.bytes.now) (answer_of C.Cost C.forms self.now.bytes.now) }
        ensures holds { (result ≡ true) ↔ RetracedIn C.Cost (net_of C.Cost C.forms self.now.bytes.now) (answer_of C.Cost C.forms self.now.bytes.now) }
    {
        self.holds()
    }
}
