// A frame in the making: the layout, and how many lines have come. Its image goes with it into each call.
ghost use Rattle.std.specs.Prelude.{◌≡◌};
ghost use Rattle.frame.specs.Calls.{lay, put, fill, restart, take, line_come, blanked};
ghost use Rattle.frame.specs.Frames.{frame_begun, frame_answer, frame_image, frame_after, frame_shape, frame_site, frame_line};

use crate::admit::first_refused;
use crate::blank::blank;
use crate::fill::fill_component;
use image::{read_code, write_code};
use layout::interface::{Layout, Shaped, shape_of};
use layout::judge::judge_image;
use samples::component::Component;
use samples::fault::{Declined, Fault, Rule};
use samples::lines::{PictureLine, TimeLine};
use samples::shape::Shape;
use samples::site::Site;

// One record for every layout.
#[derive(Drop)]
pub struct Making<L> {
    layout: L,
    come: u32,
}

impl<L: Layout> Shaped for Making<L> {
    ghost told = { λ x. L.Shaped.told x.layout };

    fn shape(&self) -> Shape {
        self.layout.shape()
    }
}

impl<L> Making<L> {
    // Whether a picture line has come.
    fn has_come(&self, shape: Shape, line: PictureLine) -> bool
        ensures { result ≡ line_come shape self.now.come line.0 }
    {
        shape
            .time
            .time_line(shape.size.height, line)
            .is_some_and(|time| time.0 < self.come)
    }
}

impl<L: Layout> Making<L> {
    // Blanks the image, and gives a frame with no lines come; refused by 11, it gives the layout back.
    pub fn begin(layout: L, image: &mut [u8]) -> Result<Making<L>, Declined<L>>
        ensures answer { result ≡ frame_begun L.Layout.meaning layout image.old }
        ensures image { image.new ≡ blanked (L.Layout.meaning layout) image.old }
    {
        // no `map` and `map_err`: both would move the layout
        if let Err(fault) = blank(&layout, image) {
            return Err(Declined {
                fault,
                back: layout,
            });
        }
        Ok(Making { layout, come: 0 })
    }

    // Does as begin, and answers 0.
    pub fn restart(&mut self, image: &mut [u8]) -> Result<u32, Fault>
        ensures answer { result ≡ frame_answer L.Layout.meaning self.old image.old restart }
        ensures image { image.new ≡ frame_image L.Layout.meaning self.old image.old restart }
        ensures frame { self.new ≡ frame_after L.Layout.meaning self.old image.old restart }
    {
        blank(&self.layout, image)?;
        self.come = 0;
        Ok(0)
    }

    // The layout's shape, where the image has the layout's length; else refused by 11.
    fn shape_for(&self, image: &[u8]) -> Result<Shape, Fault>
        ensures { result ≡ frame_shape L.Layout.meaning self.now image.now }
    {
        judge_image(image.len(), self.layout.length())?;
        Ok(shape_of(&self.layout))
    }

    // The same, with the start of a site's run; refused by 12 where the shape lacks the site.
    fn locate_in(&self, image: &[u8], site: Site) -> Result<(Shape, u32), Fault>
        ensures { result ≡ frame_site L.Layout.meaning self.now image.now site }
    {
        let shape = self.shape_for(image)?;
        let start = self.layout.locate(site)?;
        Ok((shape, start))
    }

    // The picture line that comes next, if these codes can be laid there.
    fn next_line(&self, image: &[u8], codes: &[u16]) -> Result<PictureLine, Fault>
        ensures { result ≡ frame_line L.Layout.meaning self.now image.now codes.now }
    {
        let shape = self.shape_for(image)?;
        if codes.len() != shape.line_count() as usize {
            return Err(Rule::CodeCount.into());
        }
        if let Some(index) = first_refused(shape, codes) {
            return Err(Fault::of(Rule::CodeNotAdmitted, index));
        }
        shape
            .time
            .picture_line(shape.size.height, TimeLine(self.come))
            .ok_or(Rule::EveryLineCome.into())
    }

    // Writes the picture line that comes next, and answers how many lines have come then.
    pub fn lay(&mut self, image: &mut [u8], codes: &[u16]) -> Result<u32, Fault>
        ensures answer { result ≡ frame_answer L.Layout.meaning self.old image.old (lay codes.now) }
        ensures image { image.new ≡ frame_image L.Layout.meaning self.old image.old (lay codes.now) }
        ensures frame { self.new ≡ frame_after L.Layout.meaning self.old image.old (lay codes.now) }
    {
        let line = self.next_line(image, codes)?;
        self.layout.write_line(image, line, codes)?;
        self.come += 1;
        Ok(self.come)
    }

    // Writes a code at a site, and answers the code that stood there.
    pub fn put(&mut self, image: &mut [u8], site: Site, code: u16) -> Result<u16, Fault>
        ensures answer { result ≡ frame_answer L.Layout.meaning self.old image.old (put site code) }
        ensures image { image.new ≡ frame_image L.Layout.meaning self.old image.old (put site code) }
        ensures frame { self.new ≡ self.old }
    {
        let (shape, start) = self.locate_in(image, site)?;
        if !site.component.admits(shape.bits, code) {
            return Err(Rule::CodeNotAdmitted.into());
        }
        if !self.has_come(shape, site.line) {
            return Err(Rule::LineNotCome.into());
        }
        let old = read_code(image, start, shape.bits.count);
        write_code(image, start, shape.bits.count, code);
        Ok(old)
    }

    // Writes a code at every site of a component, on all lines, and answers how many there are.
    pub fn fill(&mut self, image: &mut [u8], component: Component, code: u16) -> Result<u32, Fault>
        ensures answer { result ≡ frame_answer L.Layout.meaning self.old image.old (fill component code) }
        ensures image { image.new ≡ frame_image L.Layout.meaning self.old image.old (fill component code) }
        ensures frame { self.new ≡ self.old }
    {
        let shape = self.shape_for(image)?;
        let columns = shape.columns(component);
        if columns == 0 {
            return Err(Rule::NoSite.into());
        }
        if !component.admits(shape.bits, code) {
            return Err(Rule::CodeNotAdmitted.into());
        }
        fill_component(&self.layout, image, component, code);
        Ok(columns * shape.size.height)
    }

    // The code of a site, on lines still to come also.
    pub fn take(&self, image: &[u8], site: Site) -> Result<u16, Fault>
        ensures { result ≡ frame_answer L.Layout.meaning self.now image.now (take site) }
    {
        let (shape, start) = self.locate_in(image, site)?;
        Ok(read_code(image, start, shape.bits.count))
    }
}
