// What another maker may bring: a component chosen as the program runs, and a type of packing beside the six.
#![tactic(auto)]

pub mod aligned;
pub mod chosen;
#[cfg(test)]
mod tests;
