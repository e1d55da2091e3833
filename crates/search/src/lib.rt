//! The search from both ends: Open, Forward, Backward, Bounds and Finish.
#![tactic(auto)]

mod dry;
mod fronts;
mod labels;
mod opening;
pub mod running;
mod sections;
