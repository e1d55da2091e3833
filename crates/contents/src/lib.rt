//! What a page holds: the types of an answer, and in `specs/` the bytes of a page and what they mean.
#![tactic(auto)]

pub mod answer;
