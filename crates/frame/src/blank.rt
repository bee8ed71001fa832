// Blanking an image: each fixed bit at its value, each site at its rest code.
ghost use Rattle.std.specs.Prelude.{◌≡◌, map, length};
ghost use Rattle.std.specs.List.{range_with_len};
ghost use Rattle.samples.specs.Lines.{line_count};
ghost use Rattle.layout.specs.Images.{rest_at};
ghost use Rattle.layout.specs.Tests.{wipe_answer};
ghost use Rattle.frame.specs.Calls.{blanked};

use layout::interface::{Layout, shape_of};
use samples::fault::Fault;
use samples::lines::PictureLine;
use samples::shape::Shape;

// A line has at most four components of 4,096 columns. The used part of such a room stands beside it, since a call on a frame allocates nothing.
const LONGEST: usize = 16384;

// A line at rest.
fn rest_line(shape: Shape, codes: &mut [u16])
    requires { length codes.old ≡ line_count shape }
    ensures { codes.new ≡ map (rest_at shape) (range_with_len 0 (line_count shape)) }
{
    for (i, code) in codes.iter_mut().enumerate() {
        *code = shape
            .site_at(PictureLine(0), i as u32)
            .component
            .rest(shape.bits);
    }
}

// The fixed bits go first, in one pass, then one line at rest to every picture line. Refused by 11.
pub(crate) fn blank<L: Layout>(layout: &L, image: &mut [u8]) -> Result<(), Fault>
    ensures answer { result ≡ wipe_answer (L.Layout.meaning layout.now) image.old }
    ensures image { image.new ≡ blanked (L.Layout.meaning layout.now) image.old }
{
    layout.wipe(image)?;
    let shape = shape_of(layout);
    let mut room = [0u16; LONGEST];
    let codes = &mut room[0..shape.line_count() as usize];
    rest_line(shape, codes);
    // lines are counted: where one lies is the layout's affair, so no slice holds them
    for line in 0..shape.size.height {
        layout.write_line(image, PictureLine(line), codes)?;
    }
    Ok(())
}
