// Plane words as a layout.
ghost use Rattle.planes.specs.Words.{plane_words};
ghost use Rattle.planes.specs.Lawful.{planes_lawful};
ghost use Rattle.std.proofs.Common.{rules};

use crate::Planes;
use layout::interface::{Layout, Shaped};
use layout::judge::judge_line;
use layout::part::Part;
use samples::component::Component;
use samples::fault::{Fault, Rule};
use samples::lines::PictureLine;
use samples::parts::Parts;
use samples::shape::Shape;
use samples::site::Site;

// The shape that they were made of, whatever its order of time.
impl Shaped for Planes {
    ghost told = { λ x. x.shape };

    fn shape(&self) -> Shape {
        self.shape
    }
}

// Each site's code in the lowest bits of its word, the word's kind in the top two, 0 between.
impl Layout for Planes {
    ghost meaning = { λ x. plane_words x.shape };

    ghost lawful = { λ x. planes_lawful x.shape };

    ghost same = { Prim.search rules };

    fn length(&self) -> u32 {
        4 * self.whole()
    }

    fn locate(&self, site: Site) -> Result<u32, Fault> {
        if !self.shape.has(site) {
            return Err(Rule::NoSite.into());
        }
        let width = self.shape.columns(site.component);
        Ok(32 * (self.before(site.component) + (site.line.0 * width + site.column)))
    }

    fn owner(&self, bit: u32) -> Option<Site> {
        if bit % 32 >= self.shape.bits.count {
            return None;
        }
        let word = bit / 32;
        let component = self.plane_of(word)?;
        let width = self.shape.columns(component);
        let index = word - self.before(component);
        Some(Site {
            component,
            column: index % width,
            line: PictureLine(index / width),
        })
    }

    fn fixed(&self, bit: u32) -> bool {
        (self.blank(bit / 32) >> (bit % 32)) % 2 == 1
    }

    // Of a word with no code only the last byte can differ from 0.
    fn fixed_byte(&self, at: u32) -> u8 {
        if at % 4 != 3 {
            return 0;
        }
        (self.blank(at / 4) >> 24) as u8
    }

    fn read_part<P: Part>(
        &self,
        image: &[u8],
        line: PictureLine,
        part: &P,
        codes: &mut [u16],
    ) -> Result<(), Fault> {
        judge_line(image.len(), self.length(), self.shape, line, codes.len())?;
        self.read_plane(image, line, part.component(), codes);
        Ok(())
    }

    fn write_part<P: Part>(
        &self,
        image: &mut [u8],
        line: PictureLine,
        part: &P,
        codes: &[u16],
    ) -> Result<(), Fault> {
        judge_line(image.len(), self.length(), self.shape, line, codes.len())?;
        self.write_plane(image, line, part.component(), codes);
        Ok(())
    }

    // The line is judged once: part by part it would be four times, a third more instructions on narrow lines.
    fn read_line(&self, image: &[u8], line: PictureLine, codes: &mut [u16]) -> Result<(), Fault> {
        judge_line(image.len(), self.length(), self.shape, line, codes.len())?;
        self.read_plane(image, line, Component::Luma, codes);
        self.read_plane(image, line, Component::Cb, codes);
        self.read_plane(image, line, Component::Cr, codes);
        self.read_plane(image, line, Component::Alpha, codes);
        Ok(())
    }

    fn write_line(&self, image: &mut [u8], line: PictureLine, codes: &[u16]) -> Result<(), Fault> {
        judge_line(image.len(), self.length(), self.shape, line, codes.len())?;
        self.write_plane(image, line, Component::Luma, codes);
        self.write_plane(image, line, Component::Cb, codes);
        self.write_plane(image, line, Component::Cr, codes);
        self.write_plane(image, line, Component::Alpha, codes);
        Ok(())
    }
}
