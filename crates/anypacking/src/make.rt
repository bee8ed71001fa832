// Making a packing of plain numbers.
ghost use Rattle.std.specs.Prelude.{◌≡◌};
ghost use Rattle.anypacking.specs.Packings.{plain_packing, packing_made, packing_named};

use crate::packings::AnyPacking;
use formats::kind::Kind;
use formats::types::{TwoVuy, V210, V308, V408, V410};
use formats::wide::V216;
use packing::packed::Packed;
use samples::bounds::Size;
use samples::fault::{Fault, Rule};

impl AnyPacking {
    // A packing of a type for pictures of a size and codes of n bits, which are judged here: refused by 4, then 9.
    pub fn new(kind: Kind, width: u32, height: u32, bits: u32) -> Result<AnyPacking, Fault>
        ensures { plain_packing result ≡ packing_made kind width height bits }
    {
        let size = Size::new(width, height)?;
        if !kind.takes(bits) {
            return Err(Rule::Content.into());
        }
        // Each arm makes a packing of another type, so no shorter form serves them all.
        Ok(match kind {
            Kind::TwoVuy => AnyPacking::TwoVuy(Packed::new(TwoVuy, size)),
            Kind::V308 => AnyPacking::V308(Packed::new(V308, size)),
            Kind::V408 => AnyPacking::V408(Packed::new(V408, size)),
            Kind::V216 => AnyPacking::V216(Packed::new(V216::try_from(bits)?, size)),
            Kind::V410 => AnyPacking::V410(Packed::new(V410, size)),
            Kind::V210 => AnyPacking::V210(Packed::new(V210, size)),
        })
    }

    // The same by the type's four letters: refused by 2, then 4, then 9.
    pub fn named(letters: &str, width: u32, height: u32, bits: u32) -> Result<AnyPacking, Fault>
        ensures { plain_packing result ≡ packing_named letters.now width height bits }
    {
        let kind = letters.parse()?;
        AnyPacking::new(kind, width, height, bits)
    }
}
