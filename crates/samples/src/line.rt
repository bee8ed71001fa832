// The codes of one line: all of Y', then Cb, Cr, A, each by column.
ghost use Rattle.std.specs.Prelude.{◌≡◌, ◌+◌};
ghost use Rattle.samples.specs.Fitting.{line_fits};
ghost use Rattle.samples.specs.Lines.{first_of, line_count, site_at};
ghost use Rattle.samples.specs.Shapes.{columns};

use crate::component::Component;
use crate::lines::PictureLine;
use crate::parts::Parts;
use crate::shape::Shape;
use crate::site::Site;
use std::ops::Range;

impl Parts for Shape {
    ghost members = { columns };

    ghost fits = { line_fits };

    fn count(&self, component: Component) -> u32 {
        self.columns(component)
    }
}

// Names of the subject for what the parts of a line tell, beside what only a line has.
impl Shape {
    // Where a component's codes begin.
    pub fn first_of(self, component: Component) -> u32
        ensures { result ≡ first_of self component }
    {
        self.before(component)
    }

    // The places of a component's codes in a line.
    pub fn places(self, component: Component) -> Range<usize>
        ensures { result ≡ record { start = first_of self component; end = first_of self component + columns self component } }
    {
        let first = self.first_of(component) as usize;
        first..first + self.columns(component) as usize
    }

    // How many codes a line has.
    pub fn line_count(self) -> u32
        ensures { result ≡ line_count self }
    {
        self.whole()
    }

    // The site of the code at an index of a line; past the line's count, a site that the shape lacks.
    pub fn site_at(self, line: PictureLine, index: u32) -> Site
        ensures { result ≡ site_at self line.0 index }
    {
        let component = self.part_at(index);
        Site {
            component,
            column: index - self.before(component),
            line,
        }
    }
}
