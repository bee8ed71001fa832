// Lines come in the order of time: an odd height with the bottom field first.
use crate::given::small;
use samples::component::Component;
use samples::site::Site;
use std::test::Fail;

const FIRST: [u16; 4] = [21, 22, 23, 24];

const SECOND: [u16; 4] = [31, 32, 33, 34];

const THIRD: [u16; 4] = [41, 42, 43, 44];

// Stored field by field, bottom first, the rows stand as they came.
#[test]
fn field_by_field(rt: HostRuntime) -> Result<(), Fail> {
    let mut image = [0u8; 12];
    let mut frame = small(6, &mut image)?;
    assert_eq!(rt; frame.lay(&mut image, &FIRST), Ok(1));
    assert_eq!(rt; frame.lay(&mut image, &SECOND), Ok(2));
    assert_eq!(rt; frame.lay(&mut image, &THIRD), Ok(3));
    assert_eq!(rt; image, [23, 21, 24, 22, 33, 31, 34, 32, 43, 41, 44, 42]);
    assert_eq!(rt; frame.take(&image, Site::at(Component::Luma, 0, 1)), Ok(21));
    assert_eq!(rt; frame.take(&image, Site::at(Component::Luma, 1, 0)), Ok(32));
    assert_eq!(rt; frame.take(&image, Site::at(Component::Cb, 0, 2)), Ok(43));
    assert_eq!(rt; frame.take(&image, Site::at(Component::Cr, 0, 1)), Ok(24));
    Ok(())
}

// Woven, they stand from top to bottom: the line that came first is picture line 1.
#[test]
fn woven(rt: HostRuntime) -> Result<(), Fail> {
    let mut image = [0u8; 12];
    let mut frame = small(14, &mut image)?;
    assert_eq!(rt; frame.lay(&mut image, &FIRST), Ok(1));
    assert_eq!(rt; image, [128, 16, 128, 16, 23, 21, 24, 22, 128, 16, 128, 16]);
    assert_eq!(rt; frame.lay(&mut image, &SECOND), Ok(2));
    assert_eq!(rt; frame.lay(&mut image, &THIRD), Ok(3));
    assert_eq!(rt; image, [33, 31, 34, 32, 23, 21, 24, 22, 43, 41, 44, 42]);
    Ok(())
}
