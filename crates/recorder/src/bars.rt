// A line of colour bars at 10 bits, eight of one width, as a recorder gets it: Y' undershoots where a bar begins.
ghost use Rattle.std.specs.Prelude.{◌≡◌, ◌<◌, ◌≤◌, map, slice_set, IfOk};
ghost use Rattle.std.specs.List.{range_with_len};
ghost use Rattle.samples.specs.Lines.{line_count};
ghost use Rattle.recorder.specs.Bars.{bar_of, bar_code, bar_at};

use samples::component::Component;
use samples::lines::PictureLine;
use samples::shape::Shape;
use std::alloc::{AllocError, Global};

// The codes of a bar at a column where no bar begins.
#[derive(Clone, Copy)]
struct Bar {
    luma: u16,
    cb: u16,
    cr: u16,
}

// White, yellow, cyan, green, magenta, red, blue, black.
#[rattlefmt::skip]
const BARS: [Bar; 8] = [
    Bar { luma: 721, cb: 512, cr: 512 },
    Bar { luma: 646, cb: 176, cr: 567 },
    Bar { luma: 525, cb: 625, cr: 176 },
    Bar { luma: 450, cb: 289, cr: 231 },
    Bar { luma: 335, cb: 735, cr: 793 },
    Bar { luma: 260, cb: 399, cr: 848 },
    Bar { luma: 139, cb: 848, cr: 457 },
    Bar { luma: 64, cb: 512, cr: 512 },
];

const OPAQUE: u16 = 940;

// Black less this is under black, and still admitted.
const UNDERSHOOT: u16 = 36;

// The bar of a column, of `wide` in all.
fn bar_of(wide: u32, column: u32) -> usize
    requires { (column < wide) × (wide ≤ 4096) }
    ensures value { result ≡ bar_of wide column }
    ensures low { result < 8 }
{
    (8 * column / wide) as usize
}

// The code of a component at a column, of `wide` in all.
fn bar_code(wide: u32, component: Component, column: u32) -> u16
    requires { (column < wide) × (wide ≤ 4096) }
    ensures { result ≡ bar_code wide component column }
{
    let at = bar_of(wide, column);
    let bar = BARS[at];
    match component {
        Component::Luma => {
            if at != bar_of(wide, column.saturating_sub(1)) {
                bar.luma - UNDERSHOOT
            } else {
                bar.luma
            }
        }
        Component::Cb => bar.cb,
        Component::Cr => bar.cr,
        Component::Alpha => OPAQUE,
    }
}

// The codes of a line.
// A chain here and in carry's `rest_line`: a generic function of the code at a site was tried, and its call with `bar_code`'s requires did not close.
pub(crate) fn bars_line(heap: Global, shape: Shape) -> Result<Vec<u16>, AllocError>
    ensures { IfOk result (λ v. v.items ≡ map (bar_at shape) (range_with_len 0 (line_count shape))) }
{
    (0..shape.line_count())
        .map(|i| {
            let site = shape.site_at(PictureLine(0), i);
            bar_code(shape.columns(site.component), site.component, site.column)
        })
        .collect(heap)
}

// The same codes but for one, which is reserved.
pub(crate) fn spoiled(heap: Global, codes: &[u16]) -> Result<Vec<u16>, AllocError>
    ensures { IfOk result (λ v. v.items ≡ slice_set codes.now 725 1020) }
{
    let mut bad = Vec::from_slice(heap, codes)?;
    if let Some(code) = bad.get_mut(725) {
        *code = 1020;
    }
    Ok(bad)
}
