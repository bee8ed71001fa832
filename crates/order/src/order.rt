// The orders in which lines stand, and which picture line stands where and comes when.
ghost use Rattle.std.specs.Prelude.{◌≡◌};
ghost use Rattle.order.specs.Orders.{order_of, kind_of, rule_of, address_line_of};
ghost use Rattle.order.specs.Notes.{picture_at_of, time_at_of, OrdersAreTheNotes};

use samples::fault::{Fault, Rule};
use samples::lines::{AddressLine, PictureLine, TimeLine};
use samples::shape::TimeKind;

// How the lines of a picture are stored: whole, one field after the other, or two fields woven; of two fields the named one is the earlier.
#[derive(Clone, Copy, PartialEq, Eq, Debug)]
pub enum Order {
    Whole,
    TopThenBottom,
    BottomThenTop,
    TopWoven,
    BottomWoven,
}

// The order of a pair of fields and detail; any other pair is refused by 9.
impl TryFrom<(u8, u8)> for Order {
    type Error = Fault;

    ghost try_from_gives = { λ pair made. made ≡ order_of pair.0 pair.1 };

    fn try_from(pair: (u8, u8)) -> Result<Order, Fault> {
        match pair {
            (1, 0) => Ok(Order::Whole),
            (2, 1) => Ok(Order::TopThenBottom),
            (2, 6) => Ok(Order::BottomThenTop),
            (2, 9) => Ok(Order::TopWoven),
            (2, 14) => Ok(Order::BottomWoven),
            _ => Err(Rule::Content.into()),
        }
    }
}

impl Order {
    // The order of its lines in time.
    pub fn time_kind(self) -> TimeKind
        ensures { result ≡ kind_of self }
    {
        match self {
            Order::Whole => TimeKind::Progressive,
            Order::TopThenBottom | Order::TopWoven => TimeKind::TopFirst,
            Order::BottomThenTop | Order::BottomWoven => TimeKind::BottomFirst,
        }
    }

    // The time kind in whose order the lines are stored: fields one after the other lie as they come.
    fn rule(self) -> TimeKind
        ensures { result ≡ rule_of self }
    {
        match self {
            Order::TopThenBottom => TimeKind::TopFirst,
            Order::BottomThenTop => TimeKind::BottomFirst,
            Order::Whole | Order::TopWoven | Order::BottomWoven => TimeKind::Progressive,
        }
    }

    // Where a picture line is stored, if a picture of that height has it.
    pub fn address_line(self, height: u32, line: PictureLine) -> Option<AddressLine>
        ensures { result ≡ address_line_of self height line }
    {
        self.rule()
            .time_line(height, line)
            .map(|at| AddressLine(at.0))
    }

    // The picture line that is stored at an address line, if a picture of that height has it.
    // This and `time_at` go by the note's formulas and not by the time kinds' own: that both agree is the theorem below.
    pub fn picture_at(self, height: u32, line: AddressLine) -> Option<PictureLine>
        ensures { result ≡ picture_at_of self height line }
    {
        let n = line.0;
        (n < height).then(|| PictureLine(match self {
            Order::TopThenBottom => {
                let boundary = height - height / 2;
                if n >= boundary {
                    (n - boundary) * 2 + 1
                } else {
                    n * 2
                }
            }
            Order::BottomThenTop => {
                let boundary = height / 2;
                if n >= boundary {
                    (n - boundary) * 2
                } else {
                    n * 2 + 1
                }
            }
            Order::Whole | Order::TopWoven | Order::BottomWoven => n,
        }))
    }

    // When the line at an address line comes, if a picture of that height has it.
    pub fn time_at(self, height: u32, line: AddressLine) -> Option<TimeLine>
        ensures { result ≡ time_at_of self height line }
    {
        let n = line.0;
        (n < height).then(|| TimeLine(match self {
            Order::TopWoven => {
                if n % 2 == 0 {
                    n / 2
                } else {
                    n / 2 + (height - height / 2)
                }
            }
            Order::BottomWoven => {
                if n % 2 == 0 {
                    n / 2 + height / 2
                } else {
                    n / 2
                }
            }
            Order::Whole | Order::TopThenBottom | Order::BottomThenTop => n,
        }))
    }
}

// The stored order is the note's, for every order and every height: which picture line each address holds, and when it comes.
pub fn orders_are_the_notes()
    ensures { OrdersAreTheNotes }
{}
