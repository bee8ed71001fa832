// Components that are known as a program is compiled, so that a loop over the columns of one has it as a constant; or one that is chosen as it runs.
// Constants of types, since a const parameter takes no enum, and with a plain parameter the loop divides by a number that it looks up for each code: laying took 86 ms against 61.
ghost use Rattle.std.specs.Prelude.{◌≡◌};
ghost use Rattle.samples.specs.declared.component.Component.{Component as TheComponent};
ghost use Rattle.samples.specs.declared.component.Component.TheVariants.{Luma, Cb, Cr, Alpha};

use samples::component::Component;

// Whatever stands for one component.
pub trait Part {
    ghost which: { Self → TheComponent };

    fn component(&self) -> Component
        ensures { result ≡ which self.now };
}

// A part that is one component, as a constant.
pub trait OnePart {
    ghost COMPONENT: { TheComponent };

    const COMPONENT: Component;
}

impl<P: OnePart> Part for P {
    ghost which = { λ _. P.OnePart.COMPONENT };

    fn component(&self) -> Component {
        P::COMPONENT
    }
}

#[derive(Clone, Copy)]
pub struct LumaPart;

#[derive(Clone, Copy)]
pub struct CbPart;

#[derive(Clone, Copy)]
pub struct CrPart;

#[derive(Clone, Copy)]
pub struct AlphaPart;

impl OnePart for LumaPart {
    ghost COMPONENT = { Luma };

    const COMPONENT: Component = Component::Luma;
}

impl OnePart for CbPart {
    ghost COMPONENT = { Cb };

    const COMPONENT: Component = Component::Cb;
}

impl OnePart for CrPart {
    ghost COMPONENT = { Cr };

    const COMPONENT: Component = Component::Cr;
}

impl OnePart for AlphaPart {
    ghost COMPONENT = { Alpha };

    const COMPONENT: Component = Component::Alpha;
}
