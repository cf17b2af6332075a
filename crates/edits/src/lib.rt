//! What a script of workbook calls says, and how their answers are printed.

#![tactic(auto)]

pub mod answers;
pub mod lines;
