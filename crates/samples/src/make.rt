// Making sizes, code widths and shapes of plain numbers.
ghost use Rattle.std.specs.Prelude.{◌≡◌};
ghost use Rattle.samples.specs.Bounds.{plain_size, size_made, plain_bits, bits_made};
ghost use Rattle.samples.specs.Shapes.{plain_shape, shape_made};

use crate::bounds::{Bits, Size};
use crate::fault::{Fault, Rule};
use crate::shape::{Chroma, Shape, TimeKind};

impl Size {
    // A width that is even, 2 to 4,096, and a height of 1 to 2,304; else refused by 4.
    pub fn new(width: u32, height: u32) -> Result<Size, Fault>
        ensures { plain_size result ≡ size_made width height }
    {
        if width % 2 != 0 || width < 2 || width > 4096 {
            return Err(Rule::Size.into());
        }
        if height < 1 || height > 2304 {
            return Err(Rule::Size.into());
        }
        Ok(Size { width, height })
    }
}

impl TryFrom<u32> for Bits {
    type Error = Fault;

    ghost try_from_gives = { λ count made. plain_bits made ≡ bits_made count };

    // 8 to 16 bits; else refused by 9.
    fn try_from(count: u32) -> Result<Bits, Fault> {
        if count < 8 || count > 16 {
            return Err(Rule::Content.into());
        }
        Ok(Bits { count })
    }
}

impl Shape {
    // A shape of plain numbers, which are judged here, the size before the code width.
    pub fn new(
        width: u32,
        height: u32,
        chroma: Chroma,
        alpha: bool,
        bits: u32,
        time: TimeKind,
    ) -> Result<Shape, Fault>
        ensures { plain_shape result ≡ shape_made width height chroma alpha bits time }
    {
        let size = Size::new(width, height)?;
        let bits = Bits::try_from(bits)?;
        Ok(Shape {
            size,
            chroma,
            alpha,
            bits,
            time,
        })
    }
}
