// The words by their numbers: whose they are, and what they hold with no code.
ghost use Rattle.std.specs.Prelude.{◌≡◌, ◌+◌, ◌*◌, ◌^◌, ◌<◌};
ghost use Rattle.samples.specs.Shapes.{columns};
ghost use Rattle.planes.specs.Parts.{words_fit};
ghost use Rattle.planes.specs.Words.{plane, offset, plane_of, blank_of};

use crate::Planes;
use samples::component::Component;
use samples::lines::PictureLine;
use samples::parts::Parts;

// The words of an image, component by component.
impl Parts for Planes {
    ghost members = { λ x. plane x.shape };

    ghost fits = { λ x. words_fit x.shape };

    fn count(&self, component: Component) -> u32 {
        self.shape.columns(component) * self.shape.size.height
    }
}

impl Planes {
    // The first bit of a component's words of a line.
    pub(crate) fn run_start(self, line: PictureLine, component: Component) -> u32
        requires { line.0 < self.shape.size.height }
        ensures value { result ≡ 32 * (offset self.shape component + line.0 * columns self.shape component) }
        ensures room { result + 32 * columns self.shape component < 2 ^ 32 }
    {
        32 * (self.before(component) + line.0 * self.shape.columns(component))
    }

    // The component of a word; past the words, none.
    pub(crate) fn plane_of(self, word: u32) -> Option<Component>
        ensures { result ≡ plane_of self.shape word }
    {
        (word < self.whole()).then(|| self.part_at(word))
    }

    // A word with no code: its kind alone; past the words, 0.
    pub(crate) fn blank(self, word: u32) -> u32
        ensures { result ≡ blank_of (plane_of self.shape word) }
    {
        match self.plane_of(word) {
            None | Some(Component::Luma) => 0,
            Some(Component::Cb) => 0x4000_0000,
            Some(Component::Cr) => 0x8000_0000,
            Some(Component::Alpha) => 0xc000_0000,
        }
    }
}
