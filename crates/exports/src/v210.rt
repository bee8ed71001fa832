// Pictures in v210. `codes` has the lines one after the other, each with all of Y', then Cb, Cr.
ghost use Rattle.formats.specs.Formats.{p_v210};
ghost use Rattle.packing.specs.Packed.{packed};
ghost use Rattle.exports.specs.Frames.{lines_laid, image_laid, lines_carried, image_carried, codes_carried};
ghost use Rattle.exports.specs.Sizes.{AtSize};

use crate::picture::{carry_picture, lay_picture};
use formats::types::V210;
use packing::packed::Packed;
use samples::bounds::Size;

// Begins a frame in the image and lays every line; answers how many lines have come. Does nothing, and answers 0, where
// the size is not allowed or a length is wrong; a line with a code that is not admitted is left out.
#[unsafe(no_mangle)]
pub extern "C" fn tiwaneb_v210_lay(width: u32, height: u32, codes: &[u16], image: &mut [u8]) -> u32
    ensures answer { AtSize width height (λ z. lines_laid (packed p_v210 z) codes.now image.old) 0 result }
    ensures image { AtSize width height (λ z. image_laid (packed p_v210 z) codes.now image.old) image.old image.new }
{
    // with `map_or` all is proved but what the image holds in the end, since the closure borrows it
    let Ok(size) = Size::new(width, height) else {
        return 0;
    };
    lay_picture(Packed::new(V210, size), codes, image)
}

// The same, and then takes every code back, in the order of `codes`; `back` must be as long as these.
#[unsafe(no_mangle)]
pub extern "C" fn tiwaneb_v210_carry(
    width: u32,
    height: u32,
    codes: &[u16],
    image: &mut [u8],
    back: &mut [u16],
) -> u32
    ensures answer { AtSize width height (λ z. lines_carried (packed p_v210 z) codes.now image.old back.old) 0 result }
    ensures image { AtSize width height (λ z. image_carried (packed p_v210 z) codes.now image.old back.old) image.old image.new }
    ensures codes { AtSize width height (λ z. codes_carried (packed p_v210 z) codes.now image.old back.old) back.old back.new }
{
    let Ok(size) = Size::new(width, height) else {
        return 0;
    };
    carry_picture(Packed::new(V210, size), codes, image, back)
}
