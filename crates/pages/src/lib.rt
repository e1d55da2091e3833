//! Pages: reading and viewing them, and retracing the answer on one.
#![tactic(auto)]

mod check;
pub mod page_answer;
pub mod page_network;
pub mod read;
pub mod retrace;
pub mod view;
