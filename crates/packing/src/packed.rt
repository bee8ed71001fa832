// A packing of any type is a layout: rows of groups of runs.
ghost use Rattle.std.specs.Prelude.{◌≡◌, ◌*◌, ◌<◌, ◌≤◌};
ghost use Rattle.packing.specs.Packed.{packed, shape_of};
ghost use Rattle.packing.specs.Rows.{row_at};
ghost use Rattle.packing.specs.Groups;
ghost use Rattle.std.proofs.Common.{rules};

use crate::group::{Group, holder_of};
use crate::rows::{shown_line, stored_line};
use formats::format::Format;
use layout::interface::{Layout, Shaped};
use samples::bounds::Size;
use samples::fault::{Fault, Rule};
use samples::lines::AddressLine;
use samples::parts::Parts;
use samples::shape::{Shape, TimeKind};
use samples::site::Site;

// A type of packing and the size of its pictures.
#[derive(Clone, Copy)]
pub struct Packed<F> {
    format: F,
    size: Size,
}

impl<F: Format> Packed<F> {
    // The packing of a type for pictures of a size.
    pub fn new(format: F, size: Size) -> Packed<F>
        ensures { result ≡ record { format = format; size = size } }
    {
        Packed { format, size }
    }

    // The bytes of a row.
    pub fn row_bytes(&self) -> u32
        ensures value { result ≡ (F.Format.packing self.now.format).row self.now.size.width }
        ensures some { 0 < result }
        ensures short { result ≤ 16384 }
    {
        self.format.row(self.size)
    }

    // The first byte of a row, by the line as it is stored; refused by 12 where there is none.
    pub fn row(&self, line: AddressLine) -> Result<u32, Fault>
        ensures { result ≡ row_at (F.Format.packing self.now.format) self.now.size line }
    {
        if line.0 >= self.size.height {
            return Err(Rule::NoSite.into());
        }
        Ok(self.row_start(line))
    }

    fn row_start(&self, line: AddressLine) -> u32
        requires { line.0 < self.now.size.height }
        ensures { result ≡ line.0 * (F.Format.packing self.now.format).row self.now.size.width }
    {
        line.0 * self.row_bytes()
    }
}

impl<F: Format> Shaped for Packed<F> {
    ghost told = { λ x. shape_of (F.Format.packing x.format) x.size };

    fn shape(&self) -> Shape {
        let figures = self.format.figures();
        Shape {
            size: self.size,
            chroma: figures.chroma,
            alpha: figures.alpha,
            bits: figures.bits,
            time: TimeKind::Progressive,
        }
    }
}

impl<F: Format> Layout for Packed<F> {
    ghost meaning = { λ x. packed (F.Format.packing x.format) x.size };

    ghost lawful = { λ x. Groups.lawful (F.Format.packing x.format) (F.Format.proper x.format) x.size };

    ghost same = { Prim.search rules };

    fn length(&self) -> u32 {
        self.row_bytes() * self.size.height
    }

    fn locate(&self, site: Site) -> Result<u32, Fault> {
        let shape = self.shape();
        if !shape.has(site) {
            return Err(Rule::NoSite.into());
        }
        let group = Group::of(&self.format);
        let bits = 8 * group.figures.bytes;
        let count = group.count(site.component);
        let number = group.before(site.component) + site.column % count;
        let start = self.format.start(number);
        let row = self.row_start(stored_line(site.line));
        Ok(8 * row + site.column / count * bits + start)
    }

    fn owner(&self, bit: u32) -> Option<Site> {
        let group = Group::of(&self.format);
        let row = 8 * self.row_bytes();
        let rest = bit % row;
        let bits = 8 * group.figures.bytes;
        let number = holder_of(&self.format, rest % bits)?;
        let component = group.part_at(number);
        let index = number - group.before(component);
        let site = Site {
            component,
            column: rest / bits * group.count(component) + index,
            line: shown_line(AddressLine(bit / row)),
        };
        self.shape().has(site).then_some(site)
    }

    fn fixed(&self, _bit: u32) -> bool {
        false
    }
}
