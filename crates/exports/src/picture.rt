// A frame begun and laid with the codes of a whole picture, over any layout.
ghost use Rattle.std.specs.Prelude.{◌≡◌, length, ◌==◌};
ghost use Rattle.exports.specs.Frames.{code_count, if_whole, laid_frame, lines_laid, image_laid, lines_carried, image_carried, codes_carried};

use crate::back::take_lines;
use crate::lines::lay_lines;
use frame::making::Making;
use layout::interface::{Layout, shape_of};
use samples::shape::Shape;

// Whether the codes are as many as a picture has.
fn is_whole(shape: Shape, codes: &[u16]) -> bool
    ensures { result ≡ (length codes.now == code_count shape) }
{
    codes.len() == shape.size.height as usize * shape.line_count() as usize
}

// A frame begun in an image with every line laid, and how many have come; nothing is done where a length is wrong.
fn laid<L: Layout + Drop>(layout: L, codes: &[u16], image: &mut [u8]) -> Option<(Making<L>, u32)>
    ensures answer { let come = (laid_frame (L.Layout.meaning layout) codes.now image.old).come in result ≡ if_whole (L.Layout.meaning layout) codes.now image.old (Some (record { layout = layout; come = come }, come)) None }
    ensures image { image.new ≡ image_laid (L.Layout.meaning layout) codes.now image.old }
{
    if !is_whole(shape_of(&layout), codes) {
        return None;
    }
    let mut frame = Making::begin(layout, image).ok()?;
    let come = lay_lines(&mut frame, image, codes);
    Some((frame, come))
}

// Begins a frame in an image and lays every line; answers how many have come.
pub(crate) fn lay_picture<L: Layout + Drop>(layout: L, codes: &[u16], image: &mut [u8]) -> u32
    ensures answer { result ≡ lines_laid (L.Layout.meaning layout) codes.now image.old }
    ensures image { image.new ≡ image_laid (L.Layout.meaning layout) codes.now image.old }
{
    laid(layout, codes, image).map_or(0, |(_, come)| come)
}

// The same, and then takes every code back.
pub(crate) fn carry_picture<L: Layout + Drop>(
    layout: L,
    codes: &[u16],
    image: &mut [u8],
    back: &mut [u16],
) -> u32
    ensures answer { result ≡ lines_carried (L.Layout.meaning layout) codes.now image.old back.old }
    ensures image { image.new ≡ image_carried (L.Layout.meaning layout) codes.now image.old back.old }
    ensures codes { back.new ≡ codes_carried (L.Layout.meaning layout) codes.now image.old back.old }
{
    if back.len() != codes.len() {
        return 0;
    }
    let Some((frame, come)) = laid(layout, codes, image) else {
        return 0;
    };
    take_lines(&frame, image, back);
    come
}
