// What a type of packing brings: its fixed figures, its rows, and the start bits of the runs in a group.
ghost use Rattle.std.specs.Prelude.{◌≡◌, slice_index};
ghost use Rattle.formats.specs.Packing.{Packing, Proper, figures_of};

use samples::bounds::{Bits, Size};
use samples::shape::Chroma;

// The fixed figures of a type, as constants of the type.
pub trait Fixed {
    const GROUP_PIXELS: u32;

    const GROUP_BYTES: u32;

    const DEPTH: u16;
}

// The same and what else a type fixes, for code that serves every type.
#[derive(Clone, Copy)]
pub struct Figures {
    pub pixels: u32,
    pub bytes: u32,
    pub depth: u16,
    pub chroma: Chroma,
    pub alpha: bool,
    pub bits: Bits,
}

// A type of packing. Whoever brings one may work its figures, rows and starts out in any way; the six do it as `Tabled` says.
pub trait Format {
    ghost packing: { Self → Packing };

    fn figures(&self) -> Figures
        ensures { result ≡ figures_of (packing self.now) };

    // The bytes of a row.
    fn row(&self, size: Size) -> u32
        ensures { result ≡ (packing self.now).row size.width };

    // The start bit of a run within the group, by its number in the table; 0 past the table.
    fn start(&self, number: u32) -> u32
        ensures { result ≡ slice_index (packing self.now).starts number };

    ghost proper: { (x : Self) → Proper (packing x) };
}
