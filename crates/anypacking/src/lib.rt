// A packing whose type is known only as the program runs.
#![tactic(auto)]

pub mod make;
pub mod packings;
