//! Pipe networks and estimates behind questions, and what they mean.
#![tactic(auto)]

pub mod blank;
pub mod estimates;
pub mod lent;
pub mod network;
pub mod section;
pub mod shut_in;
