// A picture of 2 by 1: its row has 128 bytes. Word 0 is Cb, Y' and Cr from the lowest bit, ten bits each; word 1 is the second Y'.
use crate::v210::{tiwaneb_v210_carry, tiwaneb_v210_lay};

// The first 8 bytes; a part of a slice in a function of its own, so that each test stays short.
fn words(image: &[u8; 128]) -> [u8; 8] {
    let mut words = [0; 8];
    words.copy_from_slice(&image[..8]);
    words
}

// 100 + 64 * 1024 + 900 * 1048576 = 0x38410064, and 940 = 0x3ac.
#[test]
fn lays_a_line(rt: HostRuntime) {
    let mut image = [0xff; 128];
    assert_eq!(rt; tiwaneb_v210_lay(2, 1, &[64, 940, 100, 900], &mut image), 1);
    assert_eq!(rt;
        words(&image),
        [0x64, 0x00, 0x41, 0x38, 0xac, 0x03, 0x00, 0x00]
    );
    assert_eq!(rt; image[127], 0);
}

// A code below 4 is not admitted: the frame is begun, and stays blank.
#[test]
fn leaves_a_line_out(rt: HostRuntime) {
    let mut image = [0xff; 128];
    assert_eq!(rt; tiwaneb_v210_lay(2, 1, &[64, 3, 100, 900], &mut image), 0);
    assert_eq!(rt;
        words(&image),
        [0x00, 0x02, 0x01, 0x20, 0x40, 0x00, 0x00, 0x00]
    );
}

#[test]
fn carries_a_line(rt: HostRuntime) {
    let mut image = [0xff; 128];
    let mut back = [7; 4];
    assert_eq!(rt;
        tiwaneb_v210_carry(2, 1, &[64, 940, 100, 900], &mut image, &mut back),
        1
    );
    assert_eq!(rt; back, [64, 940, 100, 900]);
}

// An odd width, and too few codes: nothing is written.
#[test]
fn refuses(rt: HostRuntime) {
    let mut image = [0xff; 128];
    assert_eq!(rt; tiwaneb_v210_lay(3, 1, &[64, 940, 100, 900], &mut image), 0);
    assert_eq!(rt; tiwaneb_v210_lay(2, 1, &[64, 940, 100], &mut image), 0);
    assert_eq!(rt; image[0], 0xff);
}
