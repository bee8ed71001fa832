// Codes read and written, with what they should give worked out by hand.
use super::*;

// Ten bits in a row, and the same from the middle of a byte.
#[test]
fn reads_a_run(rt: HostRuntime) {
    assert_eq!(rt; read_code(&[0xff, 0x03, 0, 0], 0, 10), 1023);
    assert_eq!(rt; read_code(&[0, 0xb0, 0x16, 0, 0, 0], 12, 9), 363);
}

// A code that begins inside the image and ends past it, and one that lies past it.
#[test]
fn reads_zeros_past_the_end(rt: HostRuntime) {
    assert_eq!(rt; read_code(&[0xff, 0xff], 12, 10), 15);
    assert_eq!(rt; read_code(&[0xff, 0xff], 16, 10), 0);
    assert_eq!(rt; read_code(&[0xff, 0xff], 4294967295, 16), 0);
}

// Both ways of a write: the window inside the image, and over its end.
#[test]
fn writes_a_run(rt: HostRuntime) {
    let mut image = [0; 4];
    write_code(&mut image, 2, 10, 0x3ff);
    assert_eq!(rt; image, [0xfc, 0x0f, 0, 0]);
    write_code(&mut image, 28, 10, 0x3ff);
    assert_eq!(rt; image, [0xfc, 0x0f, 0, 0xf0]);
    write_code(&mut image, 32, 10, 0x3ff);
    assert_eq!(rt; image, [0xfc, 0x0f, 0, 0xf0]);
}

// A count over 16 stands for 16.
#[test]
fn caps_the_width(rt: HostRuntime) {
    let mut image = [0xff; 4];
    assert_eq!(rt; read_code(&image, 4, 20), 0xffff);
    write_code(&mut image, 4, 20, 0);
    assert_eq!(rt; image, [0x0f, 0, 0xf0, 0xff]);
}

// A code that is wider than its bits does not reach the bits beside it.
#[test]
fn keeps_the_neighbours(rt: HostRuntime) {
    let mut image = [0; 4];
    write_code(&mut image, 2, 3, 0xffff);
    assert_eq!(rt; image, [0x1c, 0, 0, 0]);
    write_code(&mut image, 7, 0, 0xffff);
    assert_eq!(rt; image, [0x1c, 0, 0, 0]);
}
