// The line order layer: in which order the lines of a picture stand, over any layout.
#![tactic(auto)]

pub mod layer;
pub mod order;
#[cfg(test)]
mod tests;
