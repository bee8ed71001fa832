// v216 and the widths of codes that it takes. No file of specs/ that names V216 is imported here.
ghost use Rattle.std.specs.Prelude.{◌≡◌, true};
ghost use Rattle.formats.specs.Wide.{v216_width, v216_starts};

use samples::bounds::Bits;

// v216: 4:2:2, each code at the top of a word of 16 bits.
#[derive(Clone, Copy)]
pub struct V216 {
    bits: Bits,
    starts: [u32; 4],
    ghost allowed: { v216_width bits.count ≡ true },
    ghost placed: { starts ≡ v216_starts bits.count },
}

impl V216 {
    // Whether v216 takes codes of n bits.
    pub(crate) fn takes(bits: u32) -> bool
        ensures { result ≡ v216_width bits }
    {
        matches!(bits, 10 | 12 | 14 | 16)
    }

    // v216 for a width of codes that is known to be allowed.
    pub(crate) fn wide(bits: Bits) -> V216
        requires { v216_width bits.count ≡ true }
        ensures { result.bits ≡ bits }
    {
        let n = bits.count;
        V216 {
            bits,
            starts: [32 - n, 64 - n, 16 - n, 48 - n],
        }
    }

    // How many bits a code has.
    pub fn bits(&self) -> Bits
        ensures { result ≡ self.now.bits }
    {
        self.bits
    }

    // The start bits of the runs in a group.
    pub(crate) fn starts(&self) -> &[u32]
        ensures { result.now ≡ v216_starts self.now.bits.count }
    {
        &self.starts
    }
}
