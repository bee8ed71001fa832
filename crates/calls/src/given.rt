// What the tests begin with.
use anypacking::packings::AnyPacking;
use frame::making::Making;
use order::layer::Ordered;
use samples::fault::Fault;

pub(crate) type Small = Making<Ordered<AnyPacking>>;

// A refusal by its number, layer and place, as the rules give them.
pub(crate) fn told<T>(said: Result<T, Fault>) -> Result<T, (u8, u8, u32)> {
    said.map_err(|fault| (fault.number(), fault.layer(), fault.place()))
}

// A frame of two columns and three lines in 2vuy, bottom field first: line 1 comes first, then 0, then 2.
// A row has 4 bytes: Cb, Y', Cr, Y'.
pub(crate) fn small(detail: u8, image: &mut [u8]) -> Result<Small, Fault> {
    let packing = AnyPacking::named("2vuy", 2, 3, 8)?;
    let layout = Ordered::new(packing, 2, detail)?;
    let frame = Making::begin(layout, image)?;
    Ok(frame)
}
