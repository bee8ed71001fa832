// Pairs and lines, with what they should give worked out by hand.
use crate::layer::Ordered;
use crate::order::Order;
use samples::lines::{AddressLine, PictureLine};

fn stored_at(order: Order, height: u32, line: u32) -> Option<u32> {
    order.address_line(height, PictureLine(line)).map(|at| at.0)
}

fn shown_at(order: Order, height: u32, line: u32) -> Option<u32> {
    order
        .picture_at(height, AddressLine(line))
        .map(|shown| shown.0)
}

fn comes_at(order: Order, height: u32, line: u32) -> Option<u32> {
    order.time_at(height, AddressLine(line)).map(|time| time.0)
}

// Three lines: the smaller field first, and the larger.
#[test]
fn stores_an_odd_height(rt: HostRuntime) {
    let bottom = Order::BottomThenTop;
    assert_eq!(rt; stored_at(bottom, 3, 0), Some(1));
    assert_eq!(rt; stored_at(bottom, 3, 1), Some(0));
    assert_eq!(rt; stored_at(bottom, 3, 2), Some(2));
    assert_eq!(rt; stored_at(bottom, 3, 3), None);
    let top = Order::TopThenBottom;
    assert_eq!(rt; stored_at(top, 3, 0), Some(0));
    assert_eq!(rt; stored_at(top, 3, 1), Some(2));
    assert_eq!(rt; stored_at(top, 3, 2), Some(1));
}

// The picture lines at the addresses of five lines, for each order; there is no sixth.
#[test]
fn shows_five_lines(rt: HostRuntime) {
    for (order, shown) in [
        (Order::Whole, [0, 1, 2, 3, 4]),
        (Order::TopThenBottom, [0, 2, 4, 1, 3]),
        (Order::BottomThenTop, [1, 3, 0, 2, 4]),
        (Order::TopWoven, [0, 1, 2, 3, 4]),
        (Order::BottomWoven, [0, 1, 2, 3, 4]),
    ] {
        for (n, line) in (0..5).zip(shown) {
            assert_eq!(rt; shown_at(order, 5, n), Some(line));
        }
        assert_eq!(rt; shown_at(order, 5, 5), None);
    }
}

// When the lines at the addresses of five lines come, for each order; there is no sixth.
#[test]
fn times_five_lines(rt: HostRuntime) {
    for (order, times) in [
        (Order::Whole, [0, 1, 2, 3, 4]),
        (Order::TopThenBottom, [0, 1, 2, 3, 4]),
        (Order::BottomThenTop, [0, 1, 2, 3, 4]),
        (Order::TopWoven, [0, 3, 1, 4, 2]),
        (Order::BottomWoven, [2, 0, 3, 1, 4]),
    ] {
        for (n, time) in (0..5).zip(times) {
            assert_eq!(rt; comes_at(order, 5, n), Some(time));
        }
        assert_eq!(rt; comes_at(order, 5, 5), None);
    }
}

// The tallest picture that a u32 can tell.
#[test]
fn reaches_the_last_line(rt: HostRuntime) {
    let all = 4294967295;
    assert_eq!(rt; shown_at(Order::TopThenBottom, all, all - 1), Some(all - 2));
    assert_eq!(rt; shown_at(Order::BottomThenTop, all, all - 1), Some(all - 1));
    assert_eq!(rt; comes_at(Order::TopWoven, all, all - 2), Some(all - 1));
}

// Another pair is refused by 9, in the layer of fields and samples, and what was given comes back.
#[test]
fn refuses_another_pair(rt: HostRuntime) {
    let told = Order::try_from((2, 7)).map_err(|fault| (
        fault.number(),
        fault.layer(),
        fault.place(),
    ));
    assert_eq!(rt; told, Err((9, 2, 0)));
    let declined = Ordered::new(5u8, 2, 7)
        .err()
        .map(|declined| (declined.fault.number(), declined.back));
    assert_eq!(rt; declined, Some((9, 5)));
}
