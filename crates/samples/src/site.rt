// Sites: where a code of a picture belongs.
ghost use Rattle.std.specs.Prelude.{◌≡◌};

use crate::component::Component;
use crate::lines::PictureLine;

// A component, a column and a picture line, both from 0.
#[derive(Clone, Copy, PartialEq, Eq, Debug)]
pub struct Site {
    pub component: Component,
    pub column: u32,
    pub line: PictureLine,
}

impl Site {
    ghost use Rattle.samples.specs.Lines.{site_of};

    // The site at a column of the picture line of that number.
    pub fn at(component: Component, column: u32, line: u32) -> Site
        ensures { result ≡ site_of component column line }
    {
        Site {
            component,
            column,
            line: PictureLine(line),
        }
    }
}
