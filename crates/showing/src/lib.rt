//! A page, line by line, for a person.
#![tactic(auto)]

pub mod first;
pub mod lines;
pub mod run;
pub mod show;
mod texts;
