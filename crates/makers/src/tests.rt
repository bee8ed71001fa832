// A width of 66 has rows of 256 bytes: 132 bytes of groups, and the boundary after them.
use crate::aligned::Aligned;
use crate::chosen::{read_component, write_component};
use layout::interface::Layout;
use packing::packed::Packed;
use samples::bounds::Size;
use samples::component::Component;
use samples::lines::PictureLine;
use samples::site::Site;
use std::test::Fail;

#[test]
fn a_type_beside_the_six(rt: HostRuntime) -> Result<(), Fail> {
    let packing = Packed::new(Aligned, Size::new(66, 2)?);
    assert_eq!(rt; packing.length(), 512);
    assert_eq!(rt;
        packing.locate(Site::at(Component::Luma, 65, 0)),
        Ok(8 * 128 + 24)
    );
    assert_eq!(rt; packing.locate(Site::at(Component::Cb, 1, 1)), Ok(8 * 260));
    assert_eq!(rt;
        packing.locate(Site::at(Component::Cr, 32, 1)),
        Ok(8 * (256 + 128) + 16)
    );
    assert_eq!(rt;
        packing.owner(8 * 260 + 7),
        Some(Site::at(Component::Cb, 1, 1))
    );
    assert_eq!(rt; packing.owner(8 * 132), None);
    Ok(())
}

// Y' 1, 2; Cb 3; Cr 4, in the bytes Cb, Y', Cr, Y'.
#[test]
fn a_component_chosen_as_the_program_runs(rt: HostRuntime) -> Result<(), Fail> {
    let packing = Packed::new(Aligned, Size::new(2, 1)?);
    let mut image = [0u8; 128];
    for component in [Component::Luma, Component::Cr] {
        write_component(
            &packing,
            &mut image,
            PictureLine(0),
            component,
            &[1, 2, 3, 4],
        )?;
    }
    let [cb, first, cr, second, ..] = image;
    assert_eq!(rt; [cb, first, cr, second], [0, 1, 4, 2]);
    let mut codes = [9; 4];
    read_component(&packing, &image, PictureLine(0), Component::Cb, &mut codes)?;
    assert_eq!(rt; codes, [9, 9, 0, 9]);
    read_component(
        &packing,
        &image,
        PictureLine(0),
        Component::Luma,
        &mut codes,
    )?;
    assert_eq!(rt; codes, [1, 2, 0, 9]);
    Ok(())
}
