//! What a search writes down, and the mathematics of why it finds the least cost.
#![tactic(auto)]

pub mod sheet;
