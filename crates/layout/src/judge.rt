// The tests before a line of an image is read or written, in one place for all layouts.
ghost use Rattle.std.specs.Prelude.{◌≡◌, Ok, Err};
ghost use Rattle.layout.specs.Tests.{length_tests, judged};

use samples::fault::{Fault, Rule};
use samples::lines::PictureLine;
use samples::shape::Shape;

// Refuses an image of `have` bytes where the layout's has `length` (11).
pub fn judge_image(have: usize, length: u32) -> Result<(), Fault>
    ensures { result ≡ length_tests have length Err (Ok tt) }
{
    if have != length as usize {
        return Err(Rule::ImageLength.into());
    }
    Ok(())
}

// Refuses an image of `have` bytes where the layout's has `length` (11), a line that the picture lacks (12), and a count of codes that is not the line's (13).
// Two pairs that are held against one another, and the shape: a struct of them would be made for this call alone.
pub fn judge_line(
    have: usize,
    length: u32,
    shape: Shape,
    line: PictureLine,
    count: usize,
) -> Result<(), Fault>
    ensures { result ≡ judged have length shape line.0 count Err (Ok tt) }
{
    judge_image(have, length)?;
    if line.0 >= shape.size.height {
        return Err(Rule::NoSite.into());
    }
    if count != shape.line_count() as usize {
        return Err(Rule::CodeCount.into());
    }
    Ok(())
}
