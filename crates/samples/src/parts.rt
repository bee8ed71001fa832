// Four parts one after the other, in the order of the components: the codes of a line, the runs of a group, the words of an image.
ghost use Rattle.std.specs.Prelude.{◌≡◌, ℕ, ◌^◌, ◌<◌};
ghost use Rattle.samples.specs.declared.component.Component.{Component as TheComponent};
ghost use Rattle.samples.specs.Parts.{before, whole, part_at};

use crate::component::Component;

// Whatever has a number of members for each component.
pub trait Parts {
    ghost members: { Self → TheComponent → ℕ };

    // How many members a component has.
    fn count(&self, component: Component) -> u32
        ensures { result ≡ members self.now component };

    // How many members stand before those of a component.
    fn before(&self, component: Component) -> u32
        ensures { result ≡ before (members self.now) component }
    {
        let luma = self.count(Component::Luma);
        let cb = self.count(Component::Cb);
        match component {
            Component::Luma => 0,
            Component::Cb => luma,
            Component::Cr => luma + cb,
            Component::Alpha => luma + cb + self.count(Component::Cr),
        }
    }

    // All members.
    fn whole(&self) -> u32
        ensures { result ≡ whole (members self.now) }
    {
        self.before(Component::Alpha) + self.count(Component::Alpha)
    }

    // The component of the member at an index; past the last one, A.
    fn part_at(&self, index: u32) -> Component
        ensures { result ≡ part_at (members self.now) index }
    {
        if index < self.before(Component::Cb) {
            Component::Luma
        } else if index < self.before(Component::Cr) {
            Component::Cb
        } else if index < self.before(Component::Alpha) {
            Component::Cr
        } else {
            Component::Alpha
        }
    }

    // The members can be counted.
    ghost fits: { (x : Self) → whole (members x) < 2 ^ 32 };
}
