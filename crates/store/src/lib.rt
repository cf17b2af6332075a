//! What a store of chains is, and what a host is that has entries and header words too: two traits with a meaning, so
//! that everything above is proved once for every store.

#![tactic(auto)]

pub mod entries;
pub mod extents;
pub mod faults;
pub mod stores;
