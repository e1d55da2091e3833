//! Searches over small networks, as tests.
#![tactic(auto)]

#[cfg(test)]
mod answers_tests;
#[cfg(test)]
mod drawn;
#[cfg(test)]
mod foreign_tests;
#[cfg(test)]
mod hours;
#[cfg(test)]
mod refusals_tests;
#[cfg(test)]
mod steps_tests;
