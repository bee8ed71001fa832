// Begin and restart: blank images byte for byte, and an image of the wrong length.
use crate::given::small;
use anypacking::packings::AnyPacking;
use frame::making::Making;
use planes::Planes;
use samples::component::Component;
use samples::shape::{Chroma, TimeKind};
use samples::site::Site;
use std::test::Fail;

// Refused by 11, begin writes nothing and gives the layout back; that layout then begins.
#[test]
fn begin_gives_the_layout_back(rt: HostRuntime) -> Result<(), Fail> {
    let mut short = [7u8; 7];
    let mut image = [7u8; 8];
    let Err(declined) = Making::begin(AnyPacking::named("v410", 2, 1, 10)?, &mut short) else {
        return Err(Fail::new("seven bytes are too few"));
    };
    assert_eq!(rt; declined.fault.number(), 11);
    assert_eq!(rt; declined.fault.layer(), 1);
    assert_eq!(rt; declined.fault.place(), 0);
    assert_eq!(rt; short, [7; 7]);
    assert!(rt; Making::begin(declined.back, &mut image).is_ok());
    assert_eq!(rt; image, [0x00, 0x08, 0x04, 0x80, 0x00, 0x08, 0x04, 0x80]);
    Ok(())
}

#[test]
fn v210_begun(rt: HostRuntime) -> Result<(), Fail> {
    let mut image = [0xffu8; 128];
    assert!(rt; Making::begin(AnyPacking::named("v210", 2, 1, 10)?, &mut image).is_ok());
    let mut expected = [0u8; 128];
    expected[1] = 0x02;
    expected[2] = 0x01;
    expected[3] = 0x20;
    expected[4] = 0x40;
    assert_eq!(rt; image, expected);
    Ok(())
}

// The kind of each word stands in its top two bits: 0 Y', 1 Cb, 2 Cr, 3 A. At 8 bits the rest codes are 16, 128, 128, 235.
#[test]
fn planes_begun(rt: HostRuntime) -> Result<(), Fail> {
    let mut image = [0xffu8; 32];
    let planes = Planes::new(2, 1, Chroma::Full, true, 8, TimeKind::Progressive)?;
    assert!(rt; Making::begin(planes, &mut image).is_ok());
    assert_eq!(rt;
        image,
        [
            16, 0, 0, 0, 16, 0, 0, 0, 128, 0, 0, 0x40, 128, 0, 0, 0x40, 128, 0, 0, 0x80, 128, 0, 0,
            0x80, 235, 0, 0, 0xc0, 235, 0, 0, 0xc0,
        ]
    );
    Ok(())
}

// Restart blanks what was written, and the lines come again from the first.
#[test]
fn restart_begins_again(rt: HostRuntime) -> Result<(), Fail> {
    let mut image = [0u8; 12];
    let mut frame = small(6, &mut image)?;
    let blank = image;
    assert_eq!(rt; frame.lay(&mut image, &[1, 2, 3, 4]), Ok(1));
    assert_eq!(rt; frame.fill(&mut image, Component::Cr, 200), Ok(3));
    assert_ne!(rt; image, blank);
    assert_eq!(rt; frame.restart(&mut image), Ok(0));
    assert_eq!(rt; image, blank);
    assert_eq!(rt; frame.lay(&mut image, &[1, 2, 3, 4]), Ok(1));
    assert_eq!(rt; frame.take(&image, Site::at(Component::Luma, 1, 1)), Ok(2));
    Ok(())
}
