// The layout of a recorder for 525 lines: bottom field first, stored field by field.
ghost use Rattle.std.specs.Prelude.{◌≡◌};
ghost use Rattle.anypacking.specs.Packings.{plain, plain_packing};
ghost use Rattle.showing.specs.Recorder.{packing_of, plain_recorder, recorded_over};

use anypacking::packings::AnyPacking;
use order::layer::Ordered;
use samples::fault::Fault;

pub(crate) const WIDTH: u32 = 720;

const HEIGHT: u32 = 486;

const BITS: u32 = 10;

pub(crate) const FIELDS: u8 = 2;

pub(crate) const DETAIL: u8 = 6;

// A packing under the recorder's line order.
pub type Recorder = Ordered<AnyPacking>;

// The recorder's packing at a width.
pub(crate) fn packing(width: u32) -> Result<AnyPacking, Fault>
    ensures { plain_packing result ≡ packing_of width }
{
    AnyPacking::named("v210", width, HEIGHT, BITS)
}

// The recorder's order of lines over a packing.
pub(crate) fn recorder(packing: AnyPacking) -> Result<Recorder, Fault>
    ensures { plain_recorder result ≡ Ok (recorded_over (plain packing)) }
{
    let layout = Ordered::new(packing, FIELDS, DETAIL)?;
    Ok(layout)
}
