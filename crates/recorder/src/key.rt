// A short run in v408: a key in A, where every code of 8 bits is admitted.
use crate::recording::Recording;
use anypacking::packings::AnyPacking;
use frame::making::Making;
use samples::component::Component;
use samples::fault::Fault;
use samples::site::Site;

// Four columns of grey, cut out by a key: nothing at the left, all at the right.
const KEYED: [u16; 16] = [
    126, 126, 126, 126, 128, 128, 128, 128, 128, 128, 128, 128, 0, 85, 170, 255,
];

pub(crate) fn run(rt: &HostRuntime) -> anyhow::Result<()> {
    println!(rt; "10. a key in v408, 4 columns by 1 line")?;
    let mut image = [0u8; 16];
    let packing = AnyPacking::named("v408", 4, 1, 8)?;
    let begun = Making::begin(packing, &mut image).map_err(Fault::from)?;
    let mut frame = Recording::new(rt, begun, &mut image);
    // the same with 0 in Y', which no rule allows
    let mut clipped = KEYED;
    clipped[2] = 0;
    frame.bytes("blank")?;
    frame.lay("a line with 0 in Y'", &clipped)?;
    frame.lay("a line with 0 and 255 in A", &KEYED)?;
    frame.bytes("keyed")?;
    frame.codes(&[
        Site::at(Component::Alpha, 0, 0),
        Site::at(Component::Alpha, 3, 0),
    ])
}
