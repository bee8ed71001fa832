// How sizes, code widths, components, chroma, times, sites and faults are written; a fault so that programs can hand it on as any error.
ghost use Rattle.std.specs.Prelude.{Some};
ghost use Rattle.samples.specs.Texts.{size_text, bits_text, component_text, chroma_text, time_text, site_text, fault_text};

use crate::bounds::{Bits, Size};
use crate::component::Component;
use crate::fault::Fault;
use crate::shape::{Chroma, TimeKind};
use crate::site::Site;
use std::error::Error;
use std::fmt;

impl fmt::Display for Size {
    ghost output = { λ x. Some (size_text x) };

    fn fmt<W: fmt::Write>(&self, f: &mut fmt::Formatter<W>) -> fmt::Result {
        let width = self.width;
        let height = self.height;
        write!(f, "{width} by {height}")
    }
}

impl fmt::Display for Bits {
    ghost output = { λ x. Some (bits_text x) };

    fn fmt<W: fmt::Write>(&self, f: &mut fmt::Formatter<W>) -> fmt::Result {
        let count = self.count;
        write!(f, "{count} bits")
    }
}

impl fmt::Display for Component {
    ghost output = { λ x. Some (component_text x) };

    fn fmt<W: fmt::Write>(&self, f: &mut fmt::Formatter<W>) -> fmt::Result {
        f.write_str(match self {
            Component::Luma => "Y'",
            Component::Cb => "Cb",
            Component::Cr => "Cr",
            Component::Alpha => "A",
        })
    }
}

impl fmt::Display for Chroma {
    ghost output = { λ x. Some (chroma_text x) };

    fn fmt<W: fmt::Write>(&self, f: &mut fmt::Formatter<W>) -> fmt::Result {
        f.write_str(match self {
            Chroma::Half => "half chroma",
            Chroma::Full => "full chroma",
        })
    }
}

impl fmt::Display for TimeKind {
    ghost output = { λ x. Some (time_text x) };

    fn fmt<W: fmt::Write>(&self, f: &mut fmt::Formatter<W>) -> fmt::Result {
        f.write_str(match self {
            TimeKind::Progressive => "progressive",
            TimeKind::TopFirst => "top field first",
            TimeKind::BottomFirst => "bottom field first",
        })
    }
}

impl fmt::Display for Site {
    ghost output = { λ x. Some (site_text x) };

    fn fmt<W: fmt::Write>(&self, f: &mut fmt::Formatter<W>) -> fmt::Result {
        let component = self.component;
        let column = self.column;
        let line = self.line.0;
        write!(f, "{component} column {column} line {line}")
    }
}

impl fmt::Display for Fault {
    ghost output = { λ x. Some (fault_text x) };

    fn fmt<W: fmt::Write>(&self, f: &mut fmt::Formatter<W>) -> fmt::Result {
        let number = self.number();
        let layer = self.layer();
        let place = self.place();
        write!(f, "refused by {number}, layer {layer}, place {place}")
    }
}

impl Error for Fault {}
