// A component chosen as the program runs, over any layout.
ghost use Rattle.std.specs.Prelude.{◌≡◌};
ghost use Rattle.layout.specs.Tests.{line_answer, part_read, part_written};

use layout::interface::Layout;
use layout::part::Part;
use samples::component::Component;
use samples::fault::Fault;
use samples::lines::PictureLine;

// A part by its component.
#[derive(Clone, Copy)]
pub struct Chosen {
    component: Component,
}

impl Part for Chosen {
    ghost which = { λ x. x.component };

    fn component(&self) -> Component {
        self.component
    }
}

// Reads the codes of a component of a picture line into their places among the line's codes.
pub fn read_component<L: Layout>(
    layout: &L,
    image: &[u8],
    line: PictureLine,
    component: Component,
    codes: &mut [u16],
) -> Result<(), Fault>
    ensures answer { result ≡ line_answer (L.Layout.meaning layout.now) image.now line.0 codes.old }
    ensures codes { codes.new ≡ part_read (L.Layout.meaning layout.now) image.now line.0 component codes.old }
{
    layout.read_part(image, line, &Chosen { component }, codes)
}

// Writes the codes of a component of a picture line, taken from their places among the line's codes.
pub fn write_component<L: Layout>(
    layout: &L,
    image: &mut [u8],
    line: PictureLine,
    component: Component,
    codes: &[u16],
) -> Result<(), Fault>
    ensures answer { result ≡ line_answer (L.Layout.meaning layout.now) image.old line.0 codes.now }
    ensures image { image.new ≡ part_written (L.Layout.meaning layout.now) image.old line.0 component codes.now }
{
    layout.write_part(image, line, &Chosen { component }, codes)
}
