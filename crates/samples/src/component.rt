// Components, and which codes each of them admits.
ghost use Rattle.std.specs.Prelude.{◌≡◌};
ghost use Rattle.samples.specs.Codes.{admits, rest_of};

use crate::bounds::Bits;

// The components in their order: Y', Cb, Cr, A.
#[derive(Clone, Copy, PartialEq, Eq, Debug)]
pub enum Component {
    Luma,
    Cb,
    Cr,
    Alpha,
}

impl Component {
    // Whether a code may stand at a site: Y', Cb and Cr leave out the reserved codes at both ends, A takes every code.
    pub fn admits(self, bits: Bits, code: u16) -> bool
        ensures { result ≡ admits bits.count self code }
    {
        let v = u32::from(code);
        let reserved = 1u32 << (bits.count - 8);
        let whole = 1u32 << bits.count;
        match self {
            Component::Alpha => v < whole,
            _ => reserved <= v && v < whole - reserved,
        }
    }

    // The code of a site at rest: black, no colour, opaque.
    pub fn rest(self, bits: Bits) -> u16
        ensures { result ≡ rest_of bits.count self }
    {
        let unit = 1u16 << (bits.count - 8);
        match self {
            Component::Luma => 16 * unit,
            Component::Cb | Component::Cr => 128 * unit,
            Component::Alpha => 235 * unit,
        }
    }
}
