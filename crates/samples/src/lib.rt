// Samples: components, shapes, sites, lines and codes, and the faults by which a call refuses.
#![tactic(auto)]

pub mod bounds;
pub mod component;
pub mod fault;
pub mod line;
pub mod lines;
pub mod make;
pub mod parts;
pub mod shape;
pub mod site;
pub mod text;
