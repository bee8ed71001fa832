// A packing whose type is known only as the program runs. Each call chooses once, and then goes by the text of that type.
ghost use Rattle.std.specs.Prelude.{◌≡◌};
ghost use Rattle.anypacking.specs.Packings.{kind_of, packing_meaning, row_bytes_of};
ghost use Rattle.anypacking.specs.Kept.{packing_lawful};
ghost use Rattle.std.proofs.Common.{rules};

use formats::kind::Kind;
use formats::types::{TwoVuy, V210, V308, V408, V410};
use formats::wide::V216;
use layout::interface::{Layout, Shaped};
use packing::packed::Packed;
use samples::fault::Fault;
use samples::lines::PictureLine;
use samples::shape::Shape;
use samples::site::Site;

// A packing of one of the six types.
#[derive(Clone, Copy)]
pub enum AnyPacking {
    TwoVuy(Packed<TwoVuy>),
    V308(Packed<V308>),
    V408(Packed<V408>),
    V216(Packed<V216>),
    V410(Packed<V410>),
    V210(Packed<V210>),
}

// The match of every method: a call chooses once, and all is constant inside the arm.
macro_rules! each {
    ($any:expr, $p:ident => $said:expr) => {
        match $any {
            AnyPacking::TwoVuy($p) => $said,
            AnyPacking::V308($p) => $said,
            AnyPacking::V408($p) => $said,
            AnyPacking::V216($p) => $said,
            AnyPacking::V410($p) => $said,
            AnyPacking::V210($p) => $said,
        }
    };
}

impl AnyPacking {
    // Its type. Arms and no constant of the formats: that would be two lines for each type in place of one.
    pub fn kind(&self) -> Kind
        ensures { result ≡ kind_of self.now }
    {
        match self {
            AnyPacking::TwoVuy(_) => Kind::TwoVuy,
            AnyPacking::V308(_) => Kind::V308,
            AnyPacking::V408(_) => Kind::V408,
            AnyPacking::V216(_) => Kind::V216,
            AnyPacking::V410(_) => Kind::V410,
            AnyPacking::V210(_) => Kind::V210,
        }
    }

    // The bytes of a row.
    pub fn row_bytes(&self) -> u32
        ensures { result ≡ row_bytes_of self.now }
    {
        each!(self, p => p.row_bytes())
    }
}

impl Shaped for AnyPacking {
    ghost told = { λ x. (packing_meaning x).shape };

    fn shape(&self) -> Shape {
        each!(self, p => p.shape())
    }
}

impl Layout for AnyPacking {
    ghost meaning = { packing_meaning };

    ghost lawful = { packing_lawful };

    ghost same = { Prim.search rules };

    fn length(&self) -> u32 {
        each!(self, p => p.length())
    }

    fn locate(&self, site: Site) -> Result<u32, Fault> {
        each!(self, p => p.locate(site))
    }

    fn owner(&self, bit: u32) -> Option<Site> {
        each!(self, p => p.owner(bit))
    }

    fn fixed(&self, bit: u32) -> bool {
        each!(self, p => p.fixed(bit))
    }

    fn fixed_byte(&self, at: u32) -> u8 {
        each!(self, p => p.fixed_byte(at))
    }

    fn wipe(&self, image: &mut [u8]) -> Result<(), Fault> {
        each!(self, p => p.wipe(image))
    }

    fn read_line(&self, image: &[u8], line: PictureLine, codes: &mut [u16]) -> Result<(), Fault> {
        each!(self, p => p.read_line(image, line, codes))
    }

    fn write_line(&self, image: &mut [u8], line: PictureLine, codes: &[u16]) -> Result<(), Fault> {
        each!(self, p => p.write_line(image, line, codes))
    }
}
