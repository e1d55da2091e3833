//! Writing a page: any network, any estimates and perhaps an answer.
#![tactic(auto)]

mod bodies;
mod holds;
mod rows;
pub mod write;
