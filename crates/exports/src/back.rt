// The codes of a whole picture taken back site by site, over any layout.
ghost use Rattle.std.specs.Prelude.{◌≡◌, length};
ghost use Rattle.samples.specs.Lines.{line_count};
ghost use Rattle.samples.specs.Shapes.{columns};
ghost use Rattle.exports.specs.Frames.{in_image, code_count, row_taken, line_taken, codes_back};

use frame::making::Making;
use layout::interface::{Layout, Shaped};
use samples::component::Component;
use samples::lines::PictureLine;
use samples::site::Site;

// Takes the codes of a component on a line.
fn take_row<L: Layout>(
    frame: &Making<L>,
    image: &[u8],
    component: Component,
    line: PictureLine,
    row: &mut [u16],
)
    requires { length row.old ≡ columns (L.Layout.meaning frame.now.layout).shape component }
    ensures { row.new ≡ row_taken (L.Layout.meaning frame.now.layout) (in_image frame.now image.now) component line.0 }
{
    for (column, code) in row.iter_mut().enumerate() {
        let site = Site {
            component,
            column: column as u32,
            line,
        };
        *code = frame.take(image, site).unwrap_or(0);
    }
}

// Takes the codes of a line.
fn take_line<L: Layout>(frame: &Making<L>, image: &[u8], line: PictureLine, codes: &mut [u16])
    requires { length codes.old ≡ line_count (L.Layout.meaning frame.now.layout).shape }
    ensures { codes.new ≡ line_taken (L.Layout.meaning frame.now.layout) (in_image frame.now image.now) line.0 }
{
    let shape = frame.shape();
    for component in [
        Component::Luma,
        Component::Cb,
        Component::Cr,
        Component::Alpha,
    ] {
        let places = shape.places(component);
        take_row(frame, image, component, line, &mut codes[places]);
    }
}

// Takes every code, in the order of the picture's lines.
pub(crate) fn take_lines<L: Layout>(frame: &Making<L>, image: &[u8], back: &mut [u16])
    requires { length back.old ≡ code_count (L.Layout.meaning frame.now.layout).shape }
    ensures { back.new ≡ codes_back (L.Layout.meaning frame.now.layout) (in_image frame.now image.now) }
{
    let shape = frame.shape();
    let count = shape.line_count() as usize;
    // with `chunks_exact_mut` all is proved but what `back` holds in the end, of which std says nothing
    for line in 0..shape.size.height {
        let from = line as usize * count;
        take_line(
            frame,
            image,
            PictureLine(line),
            &mut back[from..from + count],
        );
    }
}
