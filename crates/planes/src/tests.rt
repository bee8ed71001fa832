// Plane words made, asked, wiped, written and read, with what they should give worked out by hand.
use super::*;
use layout::interface::{Layout, Shaped};
use samples::component::Component;
use samples::fault::{Fault, Rule};
use samples::lines::PictureLine;
use samples::shape::{Chroma, TimeKind};
use samples::site::Site;
use std::test::Fail;

// Two columns, one line, half chroma, no alpha, codes of 10 bits.
fn two_by_one() -> Result<Planes, Fault> {
    Planes::new(2, 1, Chroma::Half, false, 10, TimeKind::Progressive)
}

// Two columns, three lines, full chroma, alpha, codes of 8 bits.
fn with_alpha() -> Result<Planes, Fault> {
    Planes::new(2, 3, Chroma::Full, true, 8, TimeKind::TopFirst)
}

// Where sites stand, and who owns a bit.
#[test]
fn places(rt: HostRuntime) -> Result<(), Fail> {
    let planes = two_by_one()?;
    assert_eq!(rt; planes.length(), 16);
    assert_eq!(rt; planes.locate(Site::at(Component::Luma, 0, 0)), Ok(0));
    assert_eq!(rt; planes.locate(Site::at(Component::Luma, 1, 0)), Ok(32));
    assert_eq!(rt; planes.locate(Site::at(Component::Cb, 0, 0)), Ok(64));
    assert_eq!(rt; planes.locate(Site::at(Component::Cr, 0, 0)), Ok(96));
    assert_eq!(rt;
        planes.locate(Site::at(Component::Alpha, 0, 0)),
        Err(Fault::of(Rule::NoSite, 0))
    );
    assert_eq!(rt; planes.owner(41), Some(Site::at(Component::Luma, 1, 0)));
    assert_eq!(rt; planes.owner(42), None);
    assert_eq!(rt; planes.owner(128), None);
    Ok(())
}

// By picture line, then column, whatever the order in time.
#[test]
fn goes_by_picture_line(rt: HostRuntime) -> Result<(), Fail> {
    let planes = with_alpha()?;
    assert_eq!(rt; planes.length(), 96);
    assert_eq!(rt; planes.locate(Site::at(Component::Luma, 1, 1)), Ok(96));
    assert_eq!(rt; planes.locate(Site::at(Component::Cb, 0, 2)), Ok(320));
    assert_eq!(rt; planes.locate(Site::at(Component::Alpha, 1, 2)), Ok(736));
    assert_eq!(rt; planes.owner(743), Some(Site::at(Component::Alpha, 1, 2)));
    assert_eq!(rt; planes.owner(744), None);
    Ok(())
}

// The top two bits of a word: 0 Y', 1 Cb, 2 Cr, 3 A.
#[test]
fn tells_kinds(rt: HostRuntime) -> Result<(), Fail> {
    let planes = with_alpha()?;
    assert_eq!(rt; planes.fixed_byte(3), 0);
    assert_eq!(rt; planes.fixed_byte(27), 64);
    assert_eq!(rt; planes.fixed_byte(51), 128);
    assert_eq!(rt; planes.fixed_byte(75), 192);
    assert_eq!(rt; planes.fixed_byte(74), 0);
    assert_eq!(rt; planes.fixed_byte(99), 0);
    assert!(rt; !planes.fixed(605));
    assert!(rt; planes.fixed(606));
    assert!(rt; planes.fixed(607));
    assert!(rt; !planes.fixed(799));
    Ok(())
}

// The codes at rest, written into a wiped image and read back.
#[test]
fn writes_and_reads(rt: HostRuntime) -> Result<(), Fail> {
    let planes = two_by_one()?;
    let mut image = [255; 16];
    planes.wipe(&mut image)?;
    assert_eq!(rt;
        image,
        [0, 0, 0, 0, 0, 0, 0, 0, 0, 0, 0, 0x40, 0, 0, 0, 0x80]
    );
    planes.write_line(&mut image, PictureLine(0), &[64, 64, 512, 512])?;
    assert_eq!(rt;
        image,
        [0x40, 0, 0, 0, 0x40, 0, 0, 0, 0, 2, 0, 0x40, 0, 2, 0, 0x80]
    );
    let mut codes = [0u16; 4];
    planes.read_line(&image, PictureLine(0), &mut codes)?;
    assert_eq!(rt; codes, [64, 64, 512, 512]);
    Ok(())
}

// A line in the middle of every plane: of each code the low 8 bits, and no bit beside them.
#[test]
fn writes_a_middle_line(rt: HostRuntime) -> Result<(), Fail> {
    let planes = with_alpha()?;
    let mut image = [0; 96];
    let codes = [1, 2, 3, 4, 5, 6, 7, 0x108];
    planes.write_line(&mut image, PictureLine(1), &codes)?;
    assert_eq!(rt; image[8], 1);
    assert_eq!(rt; image[12], 2);
    assert_eq!(rt; image[32], 3);
    assert_eq!(rt; image[60], 6);
    assert_eq!(rt; image[84], 8);
    assert_eq!(rt; image[85], 0);
    let mut back = [0u16; 8];
    planes.read_line(&image, PictureLine(1), &mut back)?;
    assert_eq!(rt; back, [1, 2, 3, 4, 5, 6, 7, 8]);
    Ok(())
}

// A buffer of another length is refused, and nothing changes.
#[test]
fn refuses_a_length(rt: HostRuntime) -> Result<(), Fail> {
    let planes = two_by_one()?;
    let mut image = [7; 15];
    let refused = planes.wipe(&mut image);
    assert_eq!(rt; refused, Err(Fault::of(Rule::ImageLength, 0)));
    assert_eq!(rt; image, [7; 15]);
    Ok(())
}

// The number, the layer and the place of a refusal.
fn told(made: Result<Planes, Fault>) -> Option<(u8, u8, u32)> {
    made.err()
        .map(|fault| (fault.number(), fault.layer(), fault.place()))
}

// The size is judged before the code width.
#[test]
fn refuses_numbers(rt: HostRuntime) {
    let half = Chroma::Half;
    let time = TimeKind::Progressive;
    assert_eq!(rt;
        told(Planes::new(3, 1, half, false, 10, time)),
        Some((4, 3, 0))
    );
    assert_eq!(rt;
        told(Planes::new(2, 1, half, false, 7, time)),
        Some((9, 2, 0))
    );
    assert_eq!(rt;
        told(Planes::new(3, 1, half, false, 7, time)),
        Some((4, 3, 0))
    );
    assert_eq!(rt; told(Planes::new(2, 1, half, false, 10, time)), None);
}

// The shape that was given is the shape that is told.
#[test]
fn tells_its_shape(rt: HostRuntime) -> Result<(), Fail> {
    let planes = with_alpha()?;
    assert_eq!(rt; planes.shape().size.height, 3);
    assert_eq!(rt; Planes::from(planes.shape()), planes);
    Ok(())
}
