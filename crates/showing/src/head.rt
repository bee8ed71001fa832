// How an image begins.
ghost use Rattle.std.specs.Prelude.{◌≡◌, take, Some};
ghost use Rattle.showing.specs.Heads.{bytes_text};

use std::fmt;

// The first bytes of an image, written in hexadecimal.
#[derive(Clone, Copy)]
pub struct Head<'a> {
    bytes: &'a [u8],
}

impl<'a> Head<'a> {
    // The first 16 bytes; of a shorter image all.
    pub fn of(image: &'a [u8]) -> Head<'a>
        ensures { result.bytes.now ≡ take 16 image.now }
    {
        Head {
            bytes: &image[..image.len().min(16)],
        }
    }
}

impl<'a> fmt::Display for Head<'a> {
    ghost output = { λ head. Some (bytes_text head.bytes.now) };

    fn fmt<W: fmt::Write>(&self, f: &mut fmt::Formatter<W>) -> fmt::Result {
        for byte in self.bytes {
            write!(f, " {byte:02x}")?;
        }
        Ok(())
    }
}
