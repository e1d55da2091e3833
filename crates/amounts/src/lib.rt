//! Kinds of cost and their amounts.
#![tactic(auto)]

pub mod cost;
pub mod forms;
pub mod kinds;
pub mod limits;
pub mod sampling;
