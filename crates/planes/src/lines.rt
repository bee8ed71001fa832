// A line's words of one component, with a running position.
ghost use Rattle.std.specs.Prelude.{◌≡◌, ◌<◌, length};
ghost use Rattle.std.proofs.Math.Seq.{paste};
ghost use Rattle.samples.specs.Shapes.{columns};
ghost use Rattle.samples.specs.Lines.{first_of, line_count};
ghost use Rattle.layout.specs.Images.{part_held, rewritten, part_laid};
ghost use Rattle.planes.specs.Words.{plane_words};

use crate::Planes;
use image::{read_code, write_code};
use samples::component::Component;
use samples::lines::PictureLine;

// The words of a component follow one another, so a running position finds them: a code costs one sum, and no site is sought.
// The count of bits is in a local: no store into what was lent can change it, so that a loop reads it once.
impl Planes {
    // Reads a component's words of a line into their places among the line's codes.
    pub(crate) fn read_plane(
        self,
        image: &[u8],
        line: PictureLine,
        component: Component,
        codes: &mut [u16],
    )
        requires low { line.0 < self.shape.size.height }
        requires count { length codes.old ≡ line_count self.shape }
        ensures { codes.new ≡ paste codes.old (first_of self.shape component) (part_held (plane_words self.shape) image.now line.0 component) (columns self.shape component) }
    {
        let bits = self.shape.bits.count;
        let mut from = self.run_start(line, component);
        for code in codes[self.shape.places(component)].iter_mut() {
            *code = read_code(image, from, bits);
            from += 32;
        }
    }

    // Writes a component's words of a line, each with its code of the line's codes.
    pub(crate) fn write_plane(
        self,
        image: &mut [u8],
        line: PictureLine,
        component: Component,
        codes: &[u16],
    )
        requires low { line.0 < self.shape.size.height }
        requires count { length codes.now ≡ line_count self.shape }
        ensures { image.new ≡ rewritten (plane_words self.shape) (part_laid self.shape line.0 component codes.now) image.old }
    {
        let bits = self.shape.bits.count;
        let mut to = self.run_start(line, component);
        for code in codes[self.shape.places(component)].iter() {
            write_code(image, to, bits, *code);
            to += 32;
        }
    }
}
