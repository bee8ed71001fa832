// Each refusal with its place, and which of two causes comes first. What is refused changes nothing.
use crate::given::{Small, small, told};
use samples::component::Component;
use samples::site::Site;
use std::process::Abort;
use std::test::Fail;

// A bad code of each component, the first of two.
fn lay_bad_lines(rt: &impl Abort, frame: &mut Small, image: &mut [u8]) {
    for (codes, place) in [
        ([0, 1, 2, 3], 0),
        ([1, 255, 0, 3], 1),
        ([1, 254, 0, 255], 2),
        ([1, 254, 3, 256], 3),
    ] {
        assert_eq!(rt; told(frame.lay(image, &codes)), Err((15, 2, place)));
    }
}

#[test]
fn lay_refused(rt: HostRuntime) -> Result<(), Fail> {
    let mut image = [0u8; 12];
    let mut short = [7u8; 11];
    let mut frame = small(6, &mut image)?;
    let blank = image;
    // wrong length and wrong count; wrong count and a bad code
    assert_eq!(rt; told(frame.lay(&mut short, &[0, 1, 2])), Err((11, 1, 0)));
    assert_eq!(rt; told(frame.lay(&mut image, &[0, 1, 2])), Err((13, 2, 0)));
    assert_eq!(rt;
        told(frame.lay(&mut image, &[0, 1, 2, 3, 4])),
        Err((13, 2, 0))
    );
    lay_bad_lines(&rt, &mut frame, &mut image);
    assert_eq!(rt; image, blank);
    assert_eq!(rt; short, [7; 11]);
    // no line has come by all this
    assert_eq!(rt; frame.lay(&mut image, &[1, 2, 3, 4]), Ok(1));
    Ok(())
}

fn lay_all(rt: &impl Abort, frame: &mut Small, image: &mut [u8]) {
    for come in 1..4u32 {
        assert_eq!(rt; frame.lay(image, &[1, 2, 3, 4]), Ok(come));
    }
}

// A bad code when every line has come, and a good line then.
#[test]
fn lay_refused_when_full(rt: HostRuntime) -> Result<(), Fail> {
    let mut image = [0u8; 12];
    let mut frame = small(6, &mut image)?;
    lay_all(&rt, &mut frame, &mut image);
    let whole = image;
    assert_eq!(rt; told(frame.lay(&mut image, &[9, 9, 9, 0])), Err((15, 2, 3)));
    assert_eq!(rt; told(frame.lay(&mut image, &[9, 9, 9, 9])), Err((31, 3, 0)));
    assert_eq!(rt; image, whole);
    Ok(())
}

// Codes that break a rule where line 1 alone has come.
fn put_bad_codes(rt: &impl Abort, frame: &mut Small, image: &mut [u8]) {
    for (site, code, number, layer) in [
        (Site::at(Component::Alpha, 0, 1), 0, 12, 2),
        (Site::at(Component::Cb, 1, 1), 9, 12, 2),
        (Site::at(Component::Luma, 0, 3), 9, 12, 2),
        (Site::at(Component::Luma, 0, 0), 255, 15, 2),
        (Site::at(Component::Luma, 0, 0), 9, 32, 3),
        (Site::at(Component::Luma, 0, 2), 9, 32, 3),
    ] {
        assert_eq!(rt; told(frame.put(image, site, code)), Err((number, layer, 0)));
    }
}

#[test]
fn put_refused(rt: HostRuntime) -> Result<(), Fail> {
    let mut image = [0u8; 12];
    let mut short = [7u8; 11];
    let mut frame = small(6, &mut image)?;
    assert_eq!(rt; frame.lay(&mut image, &[1, 2, 3, 4]), Ok(1));
    let before = image;
    let absent = Site::at(Component::Alpha, 0, 1);
    assert_eq!(rt; told(frame.put(&mut short, absent, 9)), Err((11, 1, 0)));
    put_bad_codes(&rt, &mut frame, &mut image);
    assert_eq!(rt; image, before);
    assert_eq!(rt; short, [7; 11]);
    Ok(())
}

#[test]
fn fill_and_restart_refused(rt: HostRuntime) -> Result<(), Fail> {
    let mut image = [0u8; 12];
    let mut short = [7u8; 11];
    let mut frame = small(6, &mut image)?;
    let before = image;
    assert_eq!(rt;
        told(frame.fill(&mut short, Component::Alpha, 9)),
        Err((11, 1, 0))
    );
    assert_eq!(rt;
        told(frame.fill(&mut image, Component::Alpha, 256)),
        Err((12, 2, 0))
    );
    assert_eq!(rt;
        told(frame.fill(&mut image, Component::Cb, 0)),
        Err((15, 2, 0))
    );
    assert_eq!(rt; told(frame.restart(&mut short)), Err((11, 1, 0)));
    assert_eq!(rt; image, before);
    assert_eq!(rt; short, [7; 11]);
    Ok(())
}

// Wrong length and wrong site; wrong site.
#[test]
fn take_refused(rt: HostRuntime) -> Result<(), Fail> {
    let mut image = [0u8; 12];
    let short = [7u8; 11];
    let frame = small(6, &mut image)?;
    let absent = Site::at(Component::Alpha, 0, 0);
    assert_eq!(rt; told(frame.take(&short, absent)), Err((11, 1, 0)));
    assert_eq!(rt; told(frame.take(&image, absent)), Err((12, 2, 0)));
    assert_eq!(rt;
        told(frame.take(&image, Site::at(Component::Luma, 2, 0))),
        Err((12, 2, 0))
    );
    Ok(())
}
