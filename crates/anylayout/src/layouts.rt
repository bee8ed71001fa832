// One layout for whatever is known only as the program runs: a packing or plane words, with or without the line order layer.
ghost use Rattle.anylayout.specs.Layouts.{layout_meaning};
ghost use Rattle.order.specs.Layered.{over_lawful};
ghost use Rattle.planes.specs.Words.{plane_words};
ghost use Rattle.planes.specs.Lawful.{planes_lawful};
ghost use Rattle.anylayout.specs.declared.layouts.AnyLayout.TheVariants.{Packing, Planes, OrderedPacking, OrderedPlanes};
ghost use Rattle.anypacking.specs.Packings.{packing_meaning};
ghost use Rattle.anypacking.specs.Kept.{packing_lawful};
ghost use Rattle.std.proofs.Common.{rules};

use anypacking::packings::AnyPacking;
use layout::interface::{Layout, Shaped};
use order::layer::Ordered;
use planes::Planes;
use samples::fault::Fault;
use samples::lines::PictureLine;
use samples::shape::Shape;
use samples::site::Site;

// A layout of this part.
#[derive(Clone, Copy)]
pub enum AnyLayout {
    Packing(AnyPacking),
    Planes(Planes),
    OrderedPacking(Ordered<AnyPacking>),
    OrderedPlanes(Ordered<Planes>),
}

// The match of every method: nested generic layouts of two kinds each would lose the four names, and choose twice a call.
macro_rules! each {
    ($any:expr, $x:ident => $said:expr) => {
        match $any {
            AnyLayout::Packing($x) => $said,
            AnyLayout::Planes($x) => $said,
            AnyLayout::OrderedPacking($x) => $said,
            AnyLayout::OrderedPlanes($x) => $said,
        }
    };
}

impl Shaped for AnyLayout {
    ghost told = { λ x. (layout_meaning x).shape };

    fn shape(&self) -> Shape {
        each!(self, x => x.shape())
    }
}

impl Layout for AnyLayout {
    ghost meaning = { layout_meaning };

    ghost lawful = { elim [
      | Packing p ↦ packing_lawful p
      | Planes p ↦ planes_lawful p.shape
      | OrderedPacking x ↦ over_lawful x.order (packing_meaning x.below) (packing_lawful x.below)
      | OrderedPlanes x ↦ over_lawful x.order (plane_words x.below.shape) (planes_lawful x.below.shape)
    ] };

    ghost same = { Prim.search rules };

    fn length(&self) -> u32 {
        each!(self, x => x.length())
    }

    fn locate(&self, site: Site) -> Result<u32, Fault> {
        each!(self, x => x.locate(site))
    }

    fn owner(&self, bit: u32) -> Option<Site> {
        each!(self, x => x.owner(bit))
    }

    fn fixed(&self, bit: u32) -> bool {
        each!(self, x => x.fixed(bit))
    }

    // From here on the interface could do it; handed on, the choice is made once a call, and the layout inside goes its own faster way.
    fn fixed_byte(&self, at: u32) -> u8 {
        each!(self, x => x.fixed_byte(at))
    }

    fn wipe(&self, image: &mut [u8]) -> Result<(), Fault> {
        each!(self, x => x.wipe(image))
    }

    fn read_line(&self, image: &[u8], line: PictureLine, codes: &mut [u16]) -> Result<(), Fault> {
        each!(self, x => x.read_line(image, line, codes))
    }

    fn write_line(&self, image: &mut [u8], line: PictureLine, codes: &[u16]) -> Result<(), Fault> {
        each!(self, x => x.write_line(image, line, codes))
    }
}
