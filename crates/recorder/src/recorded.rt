// The recorder's frame, call by call.
use crate::recording::Recording;
use samples::component::Component;
use samples::site::Site;
use showing::recorder::Recorder;

type Frame<'a> = Recording<'a, Recorder>;

// What a blank frame holds.
pub(crate) fn blank(frame: &Frame) -> anyhow::Result<()> {
    println!(frame.rt; "6. begin: a blank frame, no line come")?;
    frame.bytes("first group")?;
    frame.codes(&[
        Site::at(Component::Luma, 719, 485),
        Site::at(Component::Cb, 100, 1),
        Site::at(Component::Cr, 359, 485),
    ])
}

// Bars on every line; bottom field first, the first is picture line 1.
pub(crate) fn lay(frame: &mut Frame, codes: &[u16]) -> anyhow::Result<()> {
    println!(frame.rt; "7. lay: lines of bars, with Y' under black where the last bar begins")?;
    frame.lay_lines(1, codes)?;
    frame.bytes("first group")?;
    frame.codes(&[
        Site::at(Component::Luma, 0, 1),
        Site::at(Component::Luma, 630, 1),
        Site::at(Component::Luma, 0, 0),
    ])?;
    frame.put(Site::at(Component::Luma, 0, 0), 64)?;
    let others = frame.shape().size.height - 1;
    frame.lay_lines(others, codes)?;
    frame.codes(&[
        Site::at(Component::Luma, 0, 0),
        Site::at(Component::Cb, 359, 485),
    ])
}

// Black again at three sites.
pub(crate) fn repair(frame: &mut Frame) -> anyhow::Result<()> {
    println!(frame.rt; "8. put: three sites repaired")?;
    frame.put(Site::at(Component::Luma, 630, 0), 64)?;
    frame.put(Site::at(Component::Luma, 630, 242), 64)?;
    frame.put(Site::at(Component::Luma, 540, 485), 139)?;
    frame.codes(&[
        Site::at(Component::Luma, 629, 0),
        Site::at(Component::Luma, 630, 0),
        Site::at(Component::Luma, 630, 1),
    ])
}

// What breaks a rule: a line too many, a line with a reserved code, and two codes that have no place.
pub(crate) fn refuse(frame: &mut Frame, codes: &[u16], bad: &[u16]) -> anyhow::Result<()> {
    println!(frame.rt; "9. refused, with the image as it was")?;
    frame.lay("one line more", codes)?;
    frame.lay("a reserved code at index 725", bad)?;
    frame.put(Site::at(Component::Cr, 0, 0), 3)?;
    frame.put(Site::at(Component::Alpha, 0, 0), 940)?;
    Ok(())
}
