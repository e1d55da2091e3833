//! Routes, chains of steps and filed pages, as tests.
#![tactic(auto)]

#[cfg(test)]
mod chain_tests;
#[cfg(test)]
mod drawn;
#[cfg(test)]
mod file_tests;
#[cfg(test)]
mod route_tests;
#[cfg(test)]
mod strange_tests;
