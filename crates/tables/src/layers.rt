// Layouts under a line order, chosen as the program runs.
use anylayout::layouts::AnyLayout;
use anypacking::packings::AnyPacking;
use layout::interface::{Layout, Shaped};
use order::layer::Ordered;
use order::order::Order;
use planes::Planes;
use samples::component::Component;
use samples::lines::PictureLine;
use samples::shape::{Chroma, TimeKind};
use samples::site::Site;
use std::test::Fail;

// Plane words of 2 by 3, bottom field first: lines 0, 1, 2 are stored at 1, 0, 2.
#[test]
fn plane_words_by_field(rt: HostRuntime) -> Result<(), Fail> {
    let planes = Planes::new(2, 3, Chroma::Half, false, 10, TimeKind::Progressive)?;
    let layout = AnyLayout::OrderedPlanes(Ordered::over(planes, Order::BottomThenTop));
    assert!(rt; matches!(layout.shape().time, TimeKind::BottomFirst));
    assert_eq!(rt; layout.length(), 48);
    assert_eq!(rt; layout.locate(Site::at(Component::Luma, 0, 0))?, 64);
    assert_eq!(rt; layout.locate(Site::at(Component::Luma, 1, 1))?, 32);
    assert_eq!(rt; layout.locate(Site::at(Component::Luma, 0, 2))?, 128);
    assert_eq!(rt; layout.locate(Site::at(Component::Cb, 0, 0))?, 224);
    assert_eq!(rt; layout.locate(Site::at(Component::Cr, 0, 1))?, 288);
    assert_eq!(rt; layout.owner(9), Some(Site::at(Component::Luma, 0, 1)));
    assert_eq!(rt; layout.owner(10), None);
    assert!(rt; !layout.fixed(30) && layout.fixed(222) && layout.fixed(319));
    assert_eq!(rt; layout.fixed_byte(27), 0x40);
    Ok(())
}

// Top field first and stored so: line 1 of three is the last of the packing below.
#[test]
fn a_line_of_a_later_field(rt: HostRuntime) -> Result<(), Fail> {
    let packing = AnyPacking::named("2vuy", 2, 3, 8)?;
    let layout = AnyLayout::OrderedPacking(Ordered::over(packing, Order::TopThenBottom));
    let mut image = [0u8; 12];
    layout.write_line(&mut image, PictureLine(1), &[10, 20, 30, 40])?;
    assert_eq!(rt; image, [0, 0, 0, 0, 0, 0, 0, 0, 30, 10, 40, 20]);
    let mut codes = [0u16; 4];
    packing.read_line(&image, PictureLine(2), &mut codes)?;
    assert_eq!(rt; codes, [10, 20, 30, 40]);
    AnyLayout::Packing(packing).read_line(&image, PictureLine(0), &mut codes)?;
    assert_eq!(rt; codes, [0, 0, 0, 0]);
    Ok(())
}
