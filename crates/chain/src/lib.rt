//! Chains of units: the text that copying and linking share, written once for every store. This is an inner layer: its
//! functions ask of their callers, the stores, what those have just tested.

#![tactic(auto)]

pub mod linked;
pub mod pieces;
