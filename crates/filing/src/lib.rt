//! From a found search to a filed page: the route and its steps, and the page with its answer.
#![tactic(auto)]

pub mod chain;
pub mod file;
mod follow;
mod listing;
pub mod route;
