// Showing: a recorder's layout, and the steps in which the programs show it.
#![tactic(auto)]

pub mod head;
pub mod recorder;
pub mod steps;
