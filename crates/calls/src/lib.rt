//! What a script says: chain calls, what a store answers to them, and link tables.

#![tactic(auto)]

pub mod answers;
pub mod faults;
pub mod lines;
pub mod tables;
