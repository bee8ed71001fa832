// The five types with one width of codes.
ghost use Rattle.std.specs.Prelude.{refl};
ghost use Rattle.formats.specs.Formats.{p_2vuy, p_v308, p_v408, p_v410, p_v210};
ghost use Rattle.formats.specs.Six.{proper_2vuy, proper_v308, proper_v408, proper_v410, proper_v210, filled_2vuy, filled_v308, filled_v408, filled_v410, filled_v210};

use crate::format::Fixed;
use crate::tabled::Tabled;
use samples::bounds::Bits;
use samples::shape::Chroma;

const EIGHT: Bits = Bits { count: 8 };

const TEN: Bits = Bits { count: 10 };

// 2vuy: 4:2:2 at 8 bits.
#[derive(Clone, Copy)]
pub struct TwoVuy;

impl Fixed for TwoVuy {
    const GROUP_PIXELS: u32 = 2;

    const GROUP_BYTES: u32 = 4;

    const DEPTH: u16 = 24;
}

impl Tabled for TwoVuy {
    const GROUP_PIXELS: u32 = <TwoVuy as Fixed>::GROUP_PIXELS;

    const GROUP_BYTES: u32 = <TwoVuy as Fixed>::GROUP_BYTES;

    const ROW_GROUPS: u32 = 1;

    const DEPTH: u16 = <TwoVuy as Fixed>::DEPTH;

    const CHROMA: Chroma = Chroma::Half;

    const ALPHA: bool = false;

    ghost GROUP_PIXELS = { p_2vuy.pixels };

    ghost GROUP_BYTES = { p_2vuy.bytes };

    ghost ROW_GROUPS = { 1 };

    ghost DEPTH = { p_2vuy.depth };

    ghost CHROMA = { p_2vuy.chroma };

    ghost ALPHA = { p_2vuy.alpha };

    ghost packing = { λ _. p_2vuy };

    ghost proper = { λ _. proper_2vuy };

    ghost fixed = { λ _. refl };

    ghost filled = { λ _. filled_2vuy };

    fn bits(&self) -> Bits {
        EIGHT
    }

    fn starts(&self) -> &[u32] {
        &[8, 24, 0, 16]
    }
}

// v308: 4:4:4 at 8 bits.
#[derive(Clone, Copy)]
pub struct V308;

impl Fixed for V308 {
    const GROUP_PIXELS: u32 = 1;

    const GROUP_BYTES: u32 = 3;

    const DEPTH: u16 = 24;
}

impl Tabled for V308 {
    const GROUP_PIXELS: u32 = <V308 as Fixed>::GROUP_PIXELS;

    const GROUP_BYTES: u32 = <V308 as Fixed>::GROUP_BYTES;

    const ROW_GROUPS: u32 = 1;

    const DEPTH: u16 = <V308 as Fixed>::DEPTH;

    const CHROMA: Chroma = Chroma::Full;

    const ALPHA: bool = false;

    ghost GROUP_PIXELS = { p_v308.pixels };

    ghost GROUP_BYTES = { p_v308.bytes };

    ghost ROW_GROUPS = { 1 };

    ghost DEPTH = { p_v308.depth };

    ghost CHROMA = { p_v308.chroma };

    ghost ALPHA = { p_v308.alpha };

    ghost packing = { λ _. p_v308 };

    ghost proper = { λ _. proper_v308 };

    ghost fixed = { λ _. refl };

    ghost filled = { λ _. filled_v308 };

    fn bits(&self) -> Bits {
        EIGHT
    }

    fn starts(&self) -> &[u32] {
        &[8, 16, 0]
    }
}

// v408: 4:4:4 and A at 8 bits.
#[derive(Clone, Copy)]
pub struct V408;

impl Fixed for V408 {
    const GROUP_PIXELS: u32 = 1;

    const GROUP_BYTES: u32 = 4;

    const DEPTH: u16 = 32;
}

impl Tabled for V408 {
    const GROUP_PIXELS: u32 = <V408 as Fixed>::GROUP_PIXELS;

    const GROUP_BYTES: u32 = <V408 as Fixed>::GROUP_BYTES;

    const ROW_GROUPS: u32 = 1;

    const DEPTH: u16 = <V408 as Fixed>::DEPTH;

    const CHROMA: Chroma = Chroma::Full;

    const ALPHA: bool = true;

    ghost GROUP_PIXELS = { p_v408.pixels };

    ghost GROUP_BYTES = { p_v408.bytes };

    ghost ROW_GROUPS = { 1 };

    ghost DEPTH = { p_v408.depth };

    ghost CHROMA = { p_v408.chroma };

    ghost ALPHA = { p_v408.alpha };

    ghost packing = { λ _. p_v408 };

    ghost proper = { λ _. proper_v408 };

    ghost fixed = { λ _. refl };

    ghost filled = { λ _. filled_v408 };

    fn bits(&self) -> Bits {
        EIGHT
    }

    fn starts(&self) -> &[u32] {
        &[8, 0, 16, 24]
    }
}

// v410: 4:4:4 at 10 bits.
#[derive(Clone, Copy)]
pub struct V410;

impl Fixed for V410 {
    const GROUP_PIXELS: u32 = 1;

    const GROUP_BYTES: u32 = 4;

    const DEPTH: u16 = 24;
}

impl Tabled for V410 {
    const GROUP_PIXELS: u32 = <V410 as Fixed>::GROUP_PIXELS;

    const GROUP_BYTES: u32 = <V410 as Fixed>::GROUP_BYTES;

    const ROW_GROUPS: u32 = 1;

    const DEPTH: u16 = <V410 as Fixed>::DEPTH;

    const CHROMA: Chroma = Chroma::Full;

    const ALPHA: bool = false;

    ghost GROUP_PIXELS = { p_v410.pixels };

    ghost GROUP_BYTES = { p_v410.bytes };

    ghost ROW_GROUPS = { 1 };

    ghost DEPTH = { p_v410.depth };

    ghost CHROMA = { p_v410.chroma };

    ghost ALPHA = { p_v410.alpha };

    ghost packing = { λ _. p_v410 };

    ghost proper = { λ _. proper_v410 };

    ghost fixed = { λ _. refl };

    ghost filled = { λ _. filled_v410 };

    fn bits(&self) -> Bits {
        TEN
    }

    fn starts(&self) -> &[u32] {
        &[12, 2, 22]
    }
}

// v210: 4:2:2 at 10 bits, with rows that end at a boundary of 48 pixels.
#[derive(Clone, Copy)]
pub struct V210;

impl Fixed for V210 {
    const GROUP_PIXELS: u32 = 6;

    const GROUP_BYTES: u32 = 16;

    const DEPTH: u16 = 24;
}

impl Tabled for V210 {
    const GROUP_PIXELS: u32 = <V210 as Fixed>::GROUP_PIXELS;

    const GROUP_BYTES: u32 = <V210 as Fixed>::GROUP_BYTES;

    const ROW_GROUPS: u32 = 8;

    const DEPTH: u16 = <V210 as Fixed>::DEPTH;

    const CHROMA: Chroma = Chroma::Half;

    const ALPHA: bool = false;

    ghost GROUP_PIXELS = { p_v210.pixels };

    ghost GROUP_BYTES = { p_v210.bytes };

    ghost ROW_GROUPS = { 8 };

    ghost DEPTH = { p_v210.depth };

    ghost CHROMA = { p_v210.chroma };

    ghost ALPHA = { p_v210.alpha };

    ghost packing = { λ _. p_v210 };

    ghost proper = { λ _. proper_v210 };

    ghost fixed = { λ _. refl };

    ghost filled = { λ _. filled_v210 };

    fn bits(&self) -> Bits {
        TEN
    }

    fn starts(&self) -> &[u32] {
        &[10, 32, 52, 74, 96, 116, 0, 42, 84, 20, 64, 106]
    }
}
