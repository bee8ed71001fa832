// Writing one code at every site of a component.
ghost use Rattle.std.specs.Prelude.{◌≡◌, true};
ghost use Rattle.samples.specs.Shapes.{has};
ghost use Rattle.layout.specs.Images.{rewritten, only, filled};

use image::write_code;
use layout::interface::{Layout, shape_of};
use samples::component::Component;
use samples::lines::PictureLine;
use samples::site::Site;

// Writes a code at a site that the shape has.
fn write_site<L: Layout>(layout: &L, image: &mut [u8], site: Site, code: u16)
    requires { has (L.Layout.meaning layout.now).shape site ≡ true }
    ensures { image.new ≡ rewritten (L.Layout.meaning layout.now) (only site code) image.old }
{
    if let Ok(start) = layout.locate(site) {
        write_code(image, start, shape_of(layout).bits.count, code);
    }
}

// Writes a code at every site of a component. Sites are counted: where one lies is the layout's affair, so no slice holds them.
pub(crate) fn fill_component<L: Layout>(
    layout: &L,
    image: &mut [u8],
    component: Component,
    code: u16,
)
    ensures { image.new ≡ rewritten (L.Layout.meaning layout.now) (filled component code) image.old }
{
    let shape = shape_of(layout);
    for line in 0..shape.size.height {
        for column in 0..shape.columns(component) {
            let site = Site {
                component,
                column,
                line: PictureLine(line),
            };
            write_site(layout, image, site, code);
        }
    }
}
