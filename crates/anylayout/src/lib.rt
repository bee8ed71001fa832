// A layout that is known only as the program runs.
#![tactic(auto)]

pub mod layouts;
