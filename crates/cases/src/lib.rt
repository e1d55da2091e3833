//! Worked cases, as tests.
#![tactic(auto)]

#[cfg(test)]
mod amounts_tests;
#[cfg(test)]
mod networks_tests;
