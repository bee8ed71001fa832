// Frames over any layout.
#![tactic(auto)]

mod admit;
mod blank;
mod fill;
pub mod making;
