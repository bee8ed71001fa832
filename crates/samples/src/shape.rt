// Shapes: which sites a picture has, how wide its codes are, and in which order its lines come.
ghost use Rattle.std.specs.Prelude.{◌≡◌};
ghost use Rattle.samples.specs.Shapes.{share, columns, has, retimed};
ghost use Rattle.samples.specs.Times.{time_line_of, picture_line_of, TimesAreLines};

use crate::bounds::{Bits, Size};
use crate::component::Component;
use crate::lines::{PictureLine, TimeLine};
use crate::site::Site;

// Cb and Cr at every second column, or at each.
#[derive(Clone, Copy, PartialEq, Eq, Debug)]
pub enum Chroma {
    Half,
    Full,
}

// The order of lines in time.
#[derive(Clone, Copy, PartialEq, Eq, Debug)]
pub enum TimeKind {
    Progressive,
    TopFirst,
    BottomFirst,
}

// Its bounds are part of the types of its fields.
#[derive(Clone, Copy, PartialEq, Eq, Debug)]
pub struct Shape {
    pub size: Size,
    pub chroma: Chroma,
    pub alpha: bool,
    pub bits: Bits,
    pub time: TimeKind,
}

impl Component {
    // How many of `wide` columns a component has: Cb and Cr by the chroma, A all or none.
    pub fn share(self, wide: u32, chroma: Chroma, alpha: bool) -> u32
        ensures { result ≡ share wide chroma alpha self }
    {
        match self {
            Component::Luma => wide,
            Component::Cb | Component::Cr => match chroma {
                Chroma::Half => wide / 2,
                Chroma::Full => wide,
            },
            Component::Alpha => if alpha { wide } else { 0 },
        }
    }
}

impl Shape {
    // How many columns of a component a line has.
    pub fn columns(self, component: Component) -> u32
        ensures { result ≡ columns self component }
    {
        component.share(self.size.width, self.chroma, self.alpha)
    }

    // Whether the shape has a site.
    pub fn has(self, site: Site) -> bool
        ensures { result ≡ has self site }
    {
        site.column < self.columns(site.component) && site.line.0 < self.size.height
    }

    // The same shape in another order of time.
    pub fn retimed(self, time: TimeKind) -> Shape
        ensures { result ≡ retimed time self }
    {
        Shape { time, ..self }
    }
}

impl TimeKind {
    // When a picture line comes, if a picture of that height has it.
    pub fn time_line(self, height: u32, line: PictureLine) -> Option<TimeLine>
        ensures { result ≡ time_line_of self height line }
    {
        let s = line.0;
        (s < height).then(|| TimeLine(match self {
            TimeKind::Progressive => s,
            TimeKind::TopFirst => {
                if s % 2 == 0 {
                    s / 2
                } else {
                    height - height / 2 + (s - 1) / 2
                }
            }
            TimeKind::BottomFirst => {
                if s % 2 == 0 {
                    height / 2 + s / 2
                } else {
                    (s - 1) / 2
                }
            }
        }))
    }

    // The picture line that comes at a time, if a picture of that height has it.
    pub fn picture_line(self, height: u32, line: TimeLine) -> Option<PictureLine>
        ensures { result ≡ picture_line_of self height line }
    {
        let t = line.0;
        (t < height).then(|| PictureLine(match self {
            TimeKind::Progressive => t,
            TimeKind::TopFirst => {
                let top = height - height / 2;
                if t < top { 2 * t } else { 2 * (t - top) + 1 }
            }
            TimeKind::BottomFirst => {
                let bottom = height / 2;
                if t < bottom {
                    2 * t + 1
                } else {
                    2 * (t - bottom)
                }
            }
        }))
    }
}

// The time lines of a picture are its picture lines in another order, whatever its height.
pub fn times_are_lines()
    ensures { TimesAreLines }
{}
