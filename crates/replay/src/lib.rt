//! Calls of a workbook as values: one call is made and answered, and a list of them is replayed over any host.

#![tactic(auto)]

pub mod asks;
pub mod replays;
