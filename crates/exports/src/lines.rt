// A whole picture laid line by line, over any layout.
ghost use Rattle.std.specs.Prelude.{◌≡◌, length};
ghost use Rattle.exports.specs.Frames.{code_count, all_laid};

use frame::making::Making;
use layout::interface::{Layout, Shaped};

// Lays the lines of `codes` one after the other, and answers how many lines have come.
pub(crate) fn lay_lines<L: Layout>(frame: &mut Making<L>, image: &mut [u8], codes: &[u16]) -> u32
    requires new { frame.old.come ≡ 0 }
    requires whole { length codes.now ≡ code_count (L.Layout.meaning frame.old.layout).shape }
    ensures answer { result ≡ (all_laid (L.Layout.meaning frame.old.layout) codes.now image.old).come }
    ensures image { image.new ≡ (all_laid (L.Layout.meaning frame.old.layout) codes.now image.old).image }
    ensures frame { frame.new ≡ record { layout = frame.old.layout; come = result } }
{
    let count = frame.shape().line_count() as usize;
    let mut come = 0;
    for line in codes.chunks_exact(count) {
        come = frame.lay(image, line).unwrap_or(come);
    }
    come
}
