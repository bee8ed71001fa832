// A black frame: every site at rest.
ghost use Rattle.std.specs.Prelude.{◌≡◌, map, IfOk, OnOk};
ghost use Rattle.std.specs.List.{range_with_len};
ghost use Rattle.samples.specs.Lines.{line_count};
ghost use Rattle.layout.specs.Images.{rest_at};
ghost use Rattle.layout.specs.Tests.{line_answer};
ghost use Rattle.carry.specs.Levels.{level_of, written_to};

use image::read_code;
use layout::interface::{Layout, shape_of};
use samples::fault::Fault;
use samples::lines::PictureLine;
use samples::shape::Shape;
use samples::site::Site;
use std::alloc::{AllocError, Global};

// The codes of a line at rest.
// A chain here and in recorder's `bars_line`: a generic function of the code at a site was tried, and its call with `bar_code`'s requires did not close.
pub(crate) fn rest_line(heap: Global, shape: Shape) -> Result<Vec<u16>, AllocError>
    ensures { IfOk result (λ v. v.items ≡ map (rest_at shape) (range_with_len 0 (line_count shape))) }
{
    (0..shape.line_count())
        .map(|i| shape.site_at(PictureLine(0), i).component.rest(shape.bits))
        .collect(heap)
}

// Writes one line of codes to every picture line.
pub(crate) fn blacken<L: Layout>(layout: &L, image: &mut [u8], codes: &[u16]) -> Result<(), Fault>
    ensures answer { result ≡ line_answer (L.Layout.meaning layout.now) image.old 0 codes.now }
    ensures image { OnOk result (image.new ≡ written_to (L.Layout.meaning layout.now) codes.now image.old (L.Layout.meaning layout.now).shape.size.height) }
{
    // lines are counted: where one lies is the layout's affair, so no slice holds them
    for line in 0..shape_of(layout).size.height {
        layout.write_line(image, PictureLine(line), codes)?;
    }
    Ok(())
}

// The code of a site in an image; refused by 12 where the shape lacks the site.
pub(crate) fn level<L: Layout>(layout: &L, image: &[u8], site: Site) -> Result<u16, Fault>
    ensures { result ≡ level_of (L.Layout.meaning layout.now) image.now site }
{
    let start = layout.locate(site)?;
    Ok(read_code(image, start, shape_of(layout).bits.count))
}
