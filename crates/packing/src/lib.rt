// Packings: any type of packing is a layout, as rows of groups of runs.
#![tactic(auto)]

mod group;
pub mod packed;
mod rows;
