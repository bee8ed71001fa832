// What an accepted put, fill or lay writes, and nothing beside it.
use crate::given::{small, told};
use anypacking::packings::AnyPacking;
use frame::making::Making;
use samples::component::Component;
use samples::fault::Fault;
use samples::site::Site;
use std::test::Fail;

// Line 1 came first, and is stored first.
#[test]
fn put_writes_one_code(rt: HostRuntime) -> Result<(), Fail> {
    let mut image = [0u8; 12];
    let mut frame = small(6, &mut image)?;
    assert_eq!(rt; frame.lay(&mut image, &[21, 22, 23, 24]), Ok(1));
    assert_eq!(rt;
        frame.put(&mut image, Site::at(Component::Cr, 0, 1), 254),
        Ok(24)
    );
    assert_eq!(rt;
        frame.put(&mut image, Site::at(Component::Cr, 0, 1), 1),
        Ok(254)
    );
    assert_eq!(rt; image, [23, 21, 1, 22, 128, 16, 128, 16, 128, 16, 128, 16]);
    Ok(())
}

// On all lines, those still to come also; a lay writes over it.
#[test]
fn fill_writes_a_component(rt: HostRuntime) -> Result<(), Fail> {
    let mut image = [0u8; 12];
    let mut frame = small(6, &mut image)?;
    assert_eq!(rt; frame.fill(&mut image, Component::Luma, 235), Ok(6));
    assert_eq!(rt;
        image,
        [128, 235, 128, 235, 128, 235, 128, 235, 128, 235, 128, 235]
    );
    assert_eq!(rt; frame.fill(&mut image, Component::Cb, 90), Ok(3));
    assert_eq!(rt; frame.take(&image, Site::at(Component::Cb, 0, 2)), Ok(90));
    assert_eq!(rt; frame.lay(&mut image, &[21, 22, 23, 24]), Ok(1));
    assert_eq!(rt;
        image,
        [23, 21, 24, 22, 90, 235, 128, 235, 90, 235, 128, 235]
    );
    Ok(())
}

// A takes every code of its 8 bits, Y' does not.
#[test]
fn a_key_of_0_and_255(rt: HostRuntime) -> Result<(), Fail> {
    let mut image = [0u8; 8];
    let packing = AnyPacking::named("v408", 2, 1, 8)?;
    let mut frame = Making::begin(packing, &mut image).map_err(Fault::from)?;
    assert_eq!(rt;
        told(frame.lay(&mut image, &[16, 0, 128, 128, 128, 128, 0, 255])),
        Err((15, 2, 1))
    );
    assert_eq!(rt;
        told(frame.lay(&mut image, &[16, 235, 128, 128, 128, 128, 256, 255])),
        Err((15, 2, 6))
    );
    assert_eq!(rt;
        frame.lay(&mut image, &[16, 235, 90, 91, 240, 241, 0, 255]),
        Ok(1)
    );
    assert_eq!(rt; image, [90, 16, 240, 0, 91, 235, 241, 255]);
    Ok(())
}

// At 16 bits every code under 256 and from 65,280 on is reserved.
#[test]
fn the_widest_codes(rt: HostRuntime) -> Result<(), Fail> {
    let mut image = [0u8; 8];
    let packing = AnyPacking::named("v216", 2, 1, 16)?;
    let mut frame = Making::begin(packing, &mut image).map_err(Fault::from)?;
    assert_eq!(rt;
        told(frame.lay(&mut image, &[255, 256, 256, 256])),
        Err((15, 2, 0))
    );
    assert_eq!(rt;
        told(frame.lay(&mut image, &[256, 65279, 256, 65280])),
        Err((15, 2, 3))
    );
    assert_eq!(rt; frame.lay(&mut image, &[256, 65279, 513, 1027]), Ok(1));
    assert_eq!(rt; image, [0x01, 0x02, 0x00, 0x01, 0x03, 0x04, 0xff, 0xfe]);
    Ok(())
}
