// Three separate counts of lines; only the rules of line order turn one into another.

// A line as a packing stores it, the lowest address first.
#[derive(Clone, Copy, PartialEq, Eq, Debug)]
pub struct AddressLine(pub u32);

// A line of the picture, from top to bottom.
#[derive(Clone, Copy, PartialEq, Eq, Debug)]
pub struct PictureLine(pub u32);

// A line in time, from earliest to latest.
#[derive(Clone, Copy, PartialEq, Eq, Debug)]
pub struct TimeLine(pub u32);
