// Numbers that keep their bounds: the size of a picture and the width of a code.
// No file of specs/ that names these types is imported here.
ghost use Rattle.std.specs.Prelude.{◌≡◌, ◌%◌, ◌≤◌};

// Columns and lines of a picture.
#[derive(Clone, Copy, PartialEq, Eq, Debug)]
pub struct Size {
    pub width: u32,
    pub height: u32,
    ghost even: { width % 2 ≡ 0 },
    ghost width_low: { 2 ≤ width },
    ghost width_high: { width ≤ 4096 },
    ghost height_low: { 1 ≤ height },
    ghost height_high: { height ≤ 2304 },
}

// How many bits a code has.
#[derive(Clone, Copy, PartialEq, Eq, Debug)]
pub struct Bits {
    pub count: u32,
    ghost low: { 8 ≤ count },
    ghost high: { count ≤ 16 },
}
