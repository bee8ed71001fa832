// A type of packing by constants and a table of runs, as the six are: what follows from these is said once for every such type.
ghost use Rattle.std.specs.Prelude.{◌≡◌, ℕ, Bool};
ghost use Rattle.samples.specs.declared.shape.Chroma.{Chroma};
ghost use Rattle.formats.specs.Packing.{Packing, Proper, FillsRows, figures_of};

use crate::format::{Figures, Format};
use samples::bounds::{Bits, Size};
use samples::shape::Chroma;

// What such a type gives. A type whose rows or starts follow another rule is a `Format` of its own.
pub trait Tabled {
    const GROUP_PIXELS: u32;

    const GROUP_BYTES: u32;

    // A row is filled up to a multiple of so many groups.
    const ROW_GROUPS: u32;

    const DEPTH: u16;

    const CHROMA: Chroma;

    const ALPHA: bool;

    ghost GROUP_PIXELS: { ℕ };

    ghost GROUP_BYTES: { ℕ };

    ghost ROW_GROUPS: { ℕ };

    ghost DEPTH: { ℕ };

    ghost CHROMA: { Chroma };

    ghost ALPHA: { Bool };

    ghost packing: { Self → Packing };

    // How many bits a code has.
    fn bits(&self) -> Bits
        ensures { result ≡ (packing self.now).bits };

    // The start bits of the runs in a group: all of Y', then Cb, Cr, A, each from left to right.
    fn starts(&self) -> &[u32]
        ensures { result.now ≡ (packing self.now).starts };

    ghost proper: { (x : Self) → Proper (packing x) };

    ghost fixed: { (x : Self) → figures_of (packing x) ≡ record { pixels = GROUP_PIXELS; bytes = GROUP_BYTES; depth = DEPTH; chroma = CHROMA; alpha = ALPHA; bits = (packing x).bits } };

    ghost filled: { (x : Self) → FillsRows (packing x) ROW_GROUPS };
}

impl<T: Tabled> Format for T {
    ghost packing = { T.Tabled.packing };

    ghost proper = { T.Tabled.proper };

    fn figures(&self) -> Figures {
        Figures {
            pixels: T::GROUP_PIXELS,
            bytes: T::GROUP_BYTES,
            depth: T::DEPTH,
            chroma: T::CHROMA,
            alpha: T::ALPHA,
            bits: self.bits(),
        }
    }

    fn row(&self, size: Size) -> u32 {
        let pixels = T::GROUP_PIXELS * T::ROW_GROUPS;
        let bytes = T::GROUP_BYTES * T::ROW_GROUPS;
        // With `div_ceil`, which divides twice, taking a code was slower: 3.75 times the C and not 2.24.
        (size.width + pixels - 1) / pixels * bytes
    }

    fn start(&self, number: u32) -> u32 {
        self.starts().get(number as usize).copied().unwrap_or(0)
    }
}
