// Functions for C, by number and slice.
#![tactic(auto)]

mod back;
mod lines;
mod picture;
#[cfg(test)]
mod tests;
pub mod v210;
