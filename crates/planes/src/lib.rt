// Plane words: a layout for any shape, one word of 32 bits for each site.
#![tactic(auto)]

use samples::shape::Shape;

pub mod interface;
mod lines;
pub mod make;
#[cfg(test)]
mod tests;
mod words;

// The plane words of a shape: all of Y', then Cb, Cr, A, by picture line, then column.
#[derive(Clone, Copy, PartialEq, Eq, Debug)]
pub struct Planes {
    shape: Shape,
}
