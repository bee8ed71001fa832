// The order of lines in a bare packing: picture line 0 first.
// Two functions and no `From`: only an order of lines turns one count of lines into another.
ghost use Rattle.std.specs.Prelude.{◌≡◌};
ghost use Rattle.packing.specs.Rows.{stored_line, shown_line};

use samples::lines::{AddressLine, PictureLine};

// Where a picture line is stored.
pub(crate) fn stored_line(line: PictureLine) -> AddressLine
    ensures { result ≡ stored_line line }
{
    AddressLine(line.0)
}

// The picture line that is stored at a line.
pub(crate) fn shown_line(line: AddressLine) -> PictureLine
    ensures { result ≡ shown_line line }
{
    PictureLine(line.0)
}
