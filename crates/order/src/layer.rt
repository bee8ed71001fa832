// A layout whose picture lines are those of the layout below, in another order.
ghost use Rattle.std.specs.Prelude.{◌≡◌};
ghost use Rattle.std.specs.Result.{result_map_both};
ghost use Rattle.samples.specs.Shapes.{retimed};
ghost use Rattle.order.specs.Orders.{order_of, kind_of};
ghost use Rattle.order.specs.Over.{over, line_under, line_over};
ghost use Rattle.order.specs.Layered.{over_lawful};
ghost use Rattle.std.proofs.Common.{rules};

use crate::order::Order;
use layout::interface::{Layout, Shaped, shape_of};
use samples::fault::{Declined, Fault};
use samples::lines::{AddressLine, PictureLine};
use samples::shape::Shape;
use samples::site::Site;

// A layout below, and the order in which it holds the picture lines.
#[derive(Clone, Copy, Drop)]
pub struct Ordered<L> {
    below: L,
    order: Order,
}

impl<L> Ordered<L> {
    // The layer of an order.
    pub fn over(below: L, order: Order) -> Ordered<L>
        ensures { result ≡ record { below = below; order = order } }
    {
        Ordered { below, order }
    }

    // The layer of a pair of fields and detail: numbers, since they are judged here. Refused by 9, it gives the layout below back.
    pub fn new(below: L, fields: u8, detail: u8) -> Result<Ordered<L>, Declined<L>>
        ensures { result ≡ result_map_both (λ o. record { below = below; order = o }) (λ f. record { fault = f; back = below }) (order_of fields detail) }
    {
        // Either arm moves `below`, which two closures of combinators could not both do.
        match Order::try_from((fields, detail)) {
            Ok(order) => Ok(Ordered { below, order }),
            Err(fault) => Err(Declined { fault, back: below }),
        }
    }
}

impl<L: Layout> Ordered<L> {
    // The picture line below that holds a picture line; one that the picture lacks stays.
    fn line_below(&self, line: PictureLine) -> PictureLine
        ensures { result ≡ line_under self.now.order (L.Layout.meaning self.now.below) line }
    {
        let height = shape_of(&self.below).size.height;
        self.order
            .address_line(height, line)
            .map_or(line, |at| PictureLine(at.0))
    }

    // The picture line that a picture line below holds; one that the picture lacks stays.
    fn line_above(&self, line: PictureLine) -> PictureLine
        ensures { result ≡ line_over self.now.order (L.Layout.meaning self.now.below) line }
    {
        let height = shape_of(&self.below).size.height;
        self.order
            .picture_at(height, AddressLine(line.0))
            .unwrap_or(line)
    }
}

impl<L: Layout> Shaped for Ordered<L> {
    ghost told = { λ x. retimed (kind_of x.order) (L.Shaped.told x.below) };

    fn shape(&self) -> Shape {
        self.below.shape().retimed(self.order.time_kind())
    }
}

impl<L: Layout> Layout for Ordered<L> {
    ghost meaning = { λ x. over x.order (L.Layout.meaning x.below) };

    ghost lawful = { λ x. over_lawful x.order (L.Layout.meaning x.below) (L.Layout.lawful x.below) };

    ghost same = { Prim.search rules };

    fn length(&self) -> u32 {
        self.below.length()
    }

    fn locate(&self, site: Site) -> Result<u32, Fault> {
        self.below.locate(Site {
            line: self.line_below(site.line),
            ..site
        })
    }

    fn owner(&self, bit: u32) -> Option<Site> {
        self.below.owner(bit).map(|site| Site {
            line: self.line_above(site.line),
            ..site
        })
    }

    fn fixed(&self, bit: u32) -> bool {
        self.below.fixed(bit)
    }

    // From here on the interface could do it; handed on, the layout below goes its own faster way.
    fn fixed_byte(&self, at: u32) -> u8 {
        self.below.fixed_byte(at)
    }

    fn wipe(&self, image: &mut [u8]) -> Result<(), Fault> {
        self.below.wipe(image)
    }

    fn read_line(&self, image: &[u8], line: PictureLine, codes: &mut [u16]) -> Result<(), Fault> {
        let under = self.line_below(line);
        self.below.read_line(image, under, codes)
    }

    fn write_line(&self, image: &mut [u8], line: PictureLine, codes: &[u16]) -> Result<(), Fault> {
        let under = self.line_below(line);
        self.below.write_line(image, under, codes)
    }
}
