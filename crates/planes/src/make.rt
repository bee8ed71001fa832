// Making plane words, of a shape or of plain numbers.
ghost use Rattle.std.specs.Prelude.{◌≡◌};
ghost use Rattle.samples.specs.Shapes.{shape_made};
ghost use Rattle.planes.specs.Make.{plain_planes};

use crate::Planes;
use samples::fault::Fault;
use samples::shape::{Chroma, Shape, TimeKind};

// The plane words of a shape: every shape has them.
impl From<Shape> for Planes {
    ghost from_gives = { λ shape planes. planes ≡ record { shape = shape } };

    fn from(shape: Shape) -> Planes {
        Planes { shape }
    }
}

impl Planes {
    // The plane words of plain numbers, which are judged as their shape's: refused by 4, then by 9.
    pub fn new(
        width: u32,
        height: u32,
        chroma: Chroma,
        alpha: bool,
        bits: u32,
        time: TimeKind,
    ) -> Result<Planes, Fault>
        ensures { plain_planes result ≡ shape_made width height chroma alpha bits time }
    {
        let shape = Shape::new(width, height, chroma, alpha, bits, time)?;
        Ok(Planes::from(shape))
    }
}
