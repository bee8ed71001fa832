// Whether the codes of a line are admitted.
ghost use Rattle.std.specs.Prelude.{◌≡◌, ◌+◌, length, not, position, option_map, slice_range};
ghost use Rattle.samples.specs.Codes.{admits};
ghost use Rattle.samples.specs.Lines.{first_of, line_count};
ghost use Rattle.samples.specs.Shapes.{columns};
ghost use Rattle.frame.specs.Calls.{admitted_at, first_failing};

use samples::bounds::Bits;
use samples::component::Component;
use samples::shape::Shape;

// The first of some codes that a component does not admit.
fn refused_among(component: Component, bits: Bits, codes: &[u16]) -> Option<usize>
    ensures { result ≡ position (λ v. not (admits bits.count component v)) codes.now }
{
    codes.iter().position(|code| !component.admits(bits, *code))
}

// The first code of a component that is not admitted, by its index in the line.
fn refused_of(shape: Shape, component: Component, codes: &[u16]) -> Option<u32>
    requires { length codes.now ≡ line_count shape }
    ensures { let first = first_of shape component in
        let part = slice_range codes.now first (first + columns shape component) in
        result ≡ option_map (λ x. first + x) (position (λ v. not (admits shape.bits.count component v)) part) }
{
    let first = shape.first_of(component);
    let part = &codes[shape.places(component)];
    refused_among(component, shape.bits, part).map(|column| first + column as u32)
}

// The first code of a line that is not admitted, by its index.
pub(crate) fn first_refused(shape: Shape, codes: &[u16]) -> Option<u32>
    requires { length codes.now ≡ line_count shape }
    ensures { result ≡ first_failing (admitted_at shape codes.now) (line_count shape) }
{
    refused_of(shape, Component::Luma, codes)
        .or_else(|| refused_of(shape, Component::Cb, codes))
        .or_else(|| refused_of(shape, Component::Cr, codes))
        .or_else(|| refused_of(shape, Component::Alpha, codes))
}
