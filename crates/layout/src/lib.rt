// The layout interface: what tells a shape, what a layout means, and the laws that it keeps.
#![tactic(auto)]

pub mod interface;
pub mod judge;
pub mod laws;
pub mod part;
