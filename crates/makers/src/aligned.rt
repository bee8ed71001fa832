// A type beside the six: the group of 2vuy in rows that end at a boundary of 128 bytes, with starts that stand in no table.
ghost use Rattle.std.specs.Prelude.{◌≡◌};
ghost use Rattle.formats.specs.Formats.{eight};
ghost use Rattle.makers.specs.Aligned.{p_aligned, proper_aligned};

use formats::format::{Figures, Format};
use samples::bounds::{Bits, Size};
use samples::shape::Chroma;

fn eight_bits() -> Bits
    ensures { result ≡ eight }
{
    Bits { count: 8 }
}

#[derive(Clone, Copy)]
pub struct Aligned;

impl Format for Aligned {
    ghost packing = { λ _. p_aligned };

    ghost proper = { λ _. proper_aligned };

    fn figures(&self) -> Figures {
        Figures {
            pixels: 2,
            bytes: 4,
            depth: 24,
            chroma: Chroma::Half,
            alpha: false,
            bits: eight_bits(),
        }
    }

    fn row(&self, size: Size) -> u32 {
        128 * ((2 * size.width + 127) / 128)
    }

    fn start(&self, number: u32) -> u32 {
        match number {
            0 => 8,
            1 => 24,
            3 => 16,
            _ => 0,
        }
    }
}
