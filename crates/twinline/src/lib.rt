//! A line of two parallel pipes with crossovers, as a network.
#![tactic(auto)]

pub mod twin_line;
