// Blank images of two pixels, byte for byte.
use anypacking::packings::AnyPacking;
use layout::interface::Layout;
use samples::lines::PictureLine;
use std::test::Fail;

#[test]
fn v410_at_rest(rt: HostRuntime) -> Result<(), Fail> {
    let packing = AnyPacking::named("v410", 2, 1, 10)?;
    let mut image = [0xffu8; 8];
    packing.wipe(&mut image)?;
    packing.write_line(&mut image, PictureLine(0), &[64, 64, 512, 512, 512, 512])?;
    assert_eq!(rt; image, [0x00, 0x08, 0x04, 0x80, 0x00, 0x08, 0x04, 0x80]);
    Ok(())
}

#[test]
fn v210_at_rest(rt: HostRuntime) -> Result<(), Fail> {
    let packing = AnyPacking::named("v210", 2, 1, 10)?;
    let mut image = [0xffu8; 128];
    packing.wipe(&mut image)?;
    packing.write_line(&mut image, PictureLine(0), &[64, 64, 512, 512])?;
    let mut expected = [0u8; 128];
    expected[1] = 0x02;
    expected[2] = 0x01;
    expected[3] = 0x20;
    expected[4] = 0x40;
    assert_eq!(rt; image, expected);
    Ok(())
}

// A line of codes comes back, and its tail bits stay as they were.
#[test]
fn v210_line_and_tail(rt: HostRuntime) -> Result<(), Fail> {
    let packing = AnyPacking::named("v210", 2, 1, 10)?;
    let mut image = [0xffu8; 128];
    packing.write_line(&mut image, PictureLine(0), &[1019, 4, 300, 700])?;
    let mut codes = [0u16; 4];
    packing.read_line(&image, PictureLine(0), &mut codes)?;
    assert_eq!(rt; codes, [1019, 4, 300, 700]);
    // bits 30 and 31 and every bit from 42 on were 1, and are
    assert_eq!(rt; image[3] / 64, 3);
    assert_eq!(rt; image[5] / 4, 63);
    assert_eq!(rt; image[6], 255);
    Ok(())
}
