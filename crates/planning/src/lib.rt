//! A page searched for its route of least cost: what is printed of it, and what is filed.
#![tactic(auto)]

mod asked;
mod blanks;
pub mod error;
pub mod filed;
pub mod plan;
pub mod run;
mod texts;
pub mod turns;
