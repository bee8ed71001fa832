// The layout interface.
ghost use Rattle.std.specs.Prelude.{◌≡◌, ◌+◌, ◌*◌};
ghost use Rattle.samples.specs.declared.shape.Shape.{Shape as TheShape};
ghost use Rattle.image.specs.Bits.{number};
ghost use Rattle.layout.specs.Meaning.{Meaning, Lawful, located};
ghost use Rattle.layout.specs.Tests.{wipe_answer, wipe_image, line_answer, line_read, line_written, part_read, part_written};

use crate::judge::{judge_image, judge_line};
use crate::part::{AlphaPart, CbPart, CrPart, LumaPart, Part};
use image::{read_code, write_code};
use samples::fault::Fault;
use samples::lines::PictureLine;
use samples::shape::Shape;
use samples::site::Site;

// Whatever tells a shape does so through this trait.
pub trait Shaped {
    ghost told: { Self → TheShape };

    fn shape(&self) -> Shape
        ensures { result ≡ told self.now };
}

// A layout by its meaning: length, where each site's run starts, who owns each bit, and the value of each fixed bit.
// That its shape is the one told stands in the clauses of four calls and not in the law alone: each call is to promise it.
// Image, line and codes go as three: a struct of them would be made for each call and taken apart in it.
pub trait Layout: Shaped {
    ghost meaning: { Self → Meaning };

    // The bytes of an image.
    fn length(&self) -> u32
        ensures value { result ≡ (meaning self.now).size }
        ensures shaped { (meaning self.now).shape ≡ Self.Shaped.told self.now };

    // The start bit of a site's run; refused by 12 where the shape lacks the site.
    fn locate(&self, site: Site) -> Result<u32, Fault>
        ensures value { result ≡ located (meaning self.now) site }
        ensures shaped { (meaning self.now).shape ≡ Self.Shaped.told self.now };

    // The site whose run holds a bit.
    fn owner(&self, bit: u32) -> Option<Site>
        ensures value { result ≡ (meaning self.now).owner bit }
        ensures shaped { (meaning self.now).shape ≡ Self.Shaped.told self.now };

    // The value of a fixed bit; 0 for any other.
    fn fixed(&self, bit: u32) -> bool
        ensures value { result ≡ (meaning self.now).fixed bit }
        ensures shaped { (meaning self.now).shape ≡ Self.Shaped.told self.now };

    // The fixed bits of a byte, with 0 for any other bit.
    fn fixed_byte(&self, at: u32) -> u8
        ensures { result ≡ number 8 (λ k. (meaning self.now).fixed (8 * at + k)) }
    {
        let mut byte = 0u8;
        // past the longest image no bit is set, and the number of a bit might not fit
        if at < 0x1000_0000 {
            // the numbers of bits are counted: there is no slice to go over
            for k in 0..8 {
                if self.fixed(8 * at + k) {
                    byte += 1 << k;
                }
            }
        }
        byte
    }

    // An image with no codes: each fixed bit at its value, every other bit 0.
    fn wipe(&self, image: &mut [u8]) -> Result<(), Fault>
        ensures answer { result ≡ wipe_answer (meaning self.now) image.old }
        ensures image { image.new ≡ wipe_image (meaning self.now) image.old }
    {
        judge_image(image.len(), self.length())?;
        for (i, byte) in image.iter_mut().enumerate() {
            *byte = self.fixed_byte(i as u32);
        }
        Ok(())
    }

    // Reads the codes of one component of a picture line into their places among the line's codes. Where the part is a type with a constant, the component is a constant in the loop.
    fn read_part<P: Part>(
        &self,
        image: &[u8],
        line: PictureLine,
        part: &P,
        codes: &mut [u16],
    ) -> Result<(), Fault>
        ensures answer { result ≡ line_answer (meaning self.now) image.now line.0 codes.old }
        ensures codes { codes.new ≡ part_read (meaning self.now) image.now line.0 (P.Part.which part.now) codes.old }
    {
        let component = part.component();
        let shape = self.shape();
        judge_line(image.len(), self.length(), shape, line, codes.len())?;
        for (column, code) in codes[shape.places(component)].iter_mut().enumerate() {
            let start = self.locate(Site {
                component,
                column: column as u32,
                line,
            })?;
            *code = read_code(image, start, shape.bits.count);
        }
        Ok(())
    }

    // Writes the codes of one component of a picture line, taken from their places among the line's codes.
    fn write_part<P: Part>(
        &self,
        image: &mut [u8],
        line: PictureLine,
        part: &P,
        codes: &[u16],
    ) -> Result<(), Fault>
        ensures answer { result ≡ line_answer (meaning self.now) image.old line.0 codes.now }
        ensures image { image.new ≡ part_written (meaning self.now) image.old line.0 (P.Part.which part.now) codes.now }
    {
        let component = part.component();
        let shape = self.shape();
        judge_line(image.len(), self.length(), shape, line, codes.len())?;
        for (column, code) in codes[shape.places(component)].iter().enumerate() {
            let start = self.locate(Site {
                component,
                column: column as u32,
                line,
            })?;
            write_code(image, start, shape.bits.count, *code);
        }
        Ok(())
    }

    // Reads the codes of a picture line, all of Y', then Cb, Cr, A.
    fn read_line(&self, image: &[u8], line: PictureLine, codes: &mut [u16]) -> Result<(), Fault>
        ensures answer { result ≡ line_answer (meaning self.now) image.now line.0 codes.old }
        ensures codes { codes.new ≡ line_read (meaning self.now) image.now line.0 codes.old }
    {
        self.read_part(image, line, &LumaPart, codes)?;
        self.read_part(image, line, &CbPart, codes)?;
        self.read_part(image, line, &CrPart, codes)?;
        self.read_part(image, line, &AlphaPart, codes)
    }

    // Writes the codes of a picture line: of each code the low n bits, and no bit beside their runs.
    fn write_line(&self, image: &mut [u8], line: PictureLine, codes: &[u16]) -> Result<(), Fault>
        ensures answer { result ≡ line_answer (meaning self.now) image.old line.0 codes.now }
        ensures image { image.new ≡ line_written (meaning self.now) image.old line.0 codes.now }
    {
        self.write_part(image, line, &LumaPart, codes)?;
        self.write_part(image, line, &CbPart, codes)?;
        self.write_part(image, line, &CrPart, codes)?;
        self.write_part(image, line, &AlphaPart, codes)
    }

    ghost lawful: { (x : Self) → Lawful (meaning x) };

    // The meaning holds the shape again: it is the one that is told.
    ghost same: { (x : Self) → (meaning x).shape ≡ Self.Shaped.told x };
}

// The shape of a layout, as its meaning has it: generic code asks for it here.
pub fn shape_of<L: Layout>(layout: &L) -> Shape
    ensures { result ≡ (L.Layout.meaning layout.now).shape }
{
    layout.shape()
}
