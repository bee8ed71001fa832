// The six types of packing: their fixed figures, and a table of the runs within a group for each.
#![tactic(auto)]

pub mod format;
pub mod kind;
pub mod laws;
pub mod tabled;
pub mod types;
pub mod v216;
pub mod wide;
