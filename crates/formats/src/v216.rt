// Making v216, and v216 as a type of packing.
ghost use Rattle.std.specs.Prelude.{◌≡◌, false, refl};
ghost use Rattle.samples.specs.declared.shape.Chroma.TheVariants.{Half};
ghost use Rattle.formats.specs.Formats.{p_v216};
ghost use Rattle.formats.specs.Made.{plain_v216, v216_made};
ghost use Rattle.formats.specs.Six.{proper_v216, filled_v216};

use crate::format::Fixed;
use crate::tabled::Tabled;
use crate::wide::V216;
use samples::bounds::Bits;
use samples::fault::{Fault, Rule};
use samples::shape::Chroma;

// v216 for codes of 10, 12, 14 or 16 bits; else refused by 9.
impl TryFrom<u32> for V216 {
    type Error = Fault;

    ghost try_from_gives = { λ n r. plain_v216 r ≡ v216_made n };

    fn try_from(bits: u32) -> Result<V216, Fault> {
        if V216::takes(bits) {
            Ok(V216::wide(Bits { count: bits }))
        } else {
            Err(Rule::Content.into())
        }
    }
}

impl Fixed for V216 {
    const GROUP_PIXELS: u32 = 2;

    const GROUP_BYTES: u32 = 8;

    const DEPTH: u16 = 24;
}

impl Tabled for V216 {
    const GROUP_PIXELS: u32 = <V216 as Fixed>::GROUP_PIXELS;

    const GROUP_BYTES: u32 = <V216 as Fixed>::GROUP_BYTES;

    const ROW_GROUPS: u32 = 1;

    const DEPTH: u16 = <V216 as Fixed>::DEPTH;

    const CHROMA: Chroma = Chroma::Half;

    const ALPHA: bool = false;

    ghost GROUP_PIXELS = { 2 };

    ghost GROUP_BYTES = { 8 };

    ghost ROW_GROUPS = { 1 };

    ghost DEPTH = { 24 };

    ghost CHROMA = { Half };

    ghost ALPHA = { false };

    ghost packing = { λ x. p_v216 x.bits };

    ghost proper = { λ x. proper_v216 x.bits x.allowed };

    ghost fixed = { λ x. refl };

    ghost filled = { λ x. filled_v216 x.bits };

    fn bits(&self) -> Bits {
        self.bits()
    }

    fn starts(&self) -> &[u32] {
        self.starts()
    }
}
