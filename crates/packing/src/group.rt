// A group of runs: how many each component has, and whose a bit is.
ghost use Rattle.std.specs.Prelude.{◌≡◌, ◌≤◌};
ghost use Rattle.formats.specs.Packing.{figures_of, runs_of, covers, holder};
ghost use Rattle.packing.specs.Counting.{runs_fit};

use formats::format::{Figures, Format};
use samples::component::Component;
use samples::parts::Parts;

// The figures of a group. That its pixels are few keeps sums of runs small.
#[derive(Clone, Copy)]
pub(crate) struct Group {
    pub figures: Figures,
    ghost few: { figures.pixels ≤ 16 },
}

impl Group {
    pub fn of<F: Format>(format: &F) -> Group
        ensures { result.figures ≡ figures_of (F.Format.packing format.now) }
    {
        Group {
            figures: format.figures(),
        }
    }
}

// The runs of a group, component by component, as the table has them.
impl Parts for Group {
    ghost members = { λ group. runs_of group.figures };

    ghost fits = { λ group. runs_fit group.figures group.few };

    fn count(&self, component: Component) -> u32 {
        let figures = self.figures;
        component.share(figures.pixels, figures.chroma, figures.alpha)
    }
}

// Whether a run of n bits holds a bit.
fn covers_bit(bits: u32, bit: u32, start: u32) -> bool
    ensures { result ≡ covers bits bit start }
{
    start <= bit && bit - start < bits
}

// The number of the run that holds a bit of the group. Runs are counted: a type need not have a table that could be gone over.
pub(crate) fn holder_of<F: Format>(format: &F, bit: u32) -> Option<u32>
    ensures { result ≡ holder (F.Format.packing format.now) bit }
{
    let group = Group::of(format);
    let bits = group.figures.bits.count;
    for number in 0..group.whole() {
        if covers_bit(bits, bit, format.start(number)) {
            return Some(number);
        }
    }
    None
}
