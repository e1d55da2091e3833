//! Pages that are cut, damaged, read, retraced and written again, as tests.
#![tactic(auto)]

#[cfg(test)]
mod damage_tests;
#[cfg(test)]
mod round_trip_tests;
pub mod worked;
