//! The records of a page: a byte of kind, and fields whose widths the kind fixes.
#![tactic(auto)]

pub mod due;
pub mod kinds;
pub mod limits;
mod numbers;
pub mod record;
