// The bits of an image: bit b is bit b mod 8 (0 the least) of byte floor(b / 8).
#![tactic(auto)]

ghost use Rattle.std.specs.Prelude.{◌≡◌, ◌*◌, ◌^◌, ◌<◌, slice_index, slice_set};
ghost use Rattle.image.specs.Bits.{code_at, width, written};

#[cfg(test)]
mod tests;

// The byte at i, or 0 past the end, since a code may run past it.
fn byte_at(image: &[u8], i: usize) -> u8
    ensures { result ≡ slice_index image.now i }
{
    image.get(i).copied().unwrap_or(0)
}

// Writes the byte at i; past the end no bit has a place, so nothing is written. With `get_mut` what the image then holds did not prove.
fn put_byte(image: &mut [u8], i: usize, byte: u8)
    ensures { image.new ≡ slice_set image.old i byte }
{
    if i < image.len() {
        image[i] = byte;
    }
}

// The 32 bits from byte `at` on: one load, but near the end.
fn window(image: &[u8], at: usize) -> u64
    requires { at < 2 ^ 32 }
    ensures { result ≡ code_at 32 (8 * at) image.now }
{
    match image
        .get(at..at + 4)
        .and_then(|part| part.first_chunk::<4>())
    {
        Some(bytes) => u64::from(u32::from_le_bytes(*bytes)),
        None => window_at_end(image, at),
    }
}

// The same where bytes are missing: each bit past the end is 0. Byte by byte: a copy of a length that varies would be a call of C's memcpy, which who links this part might not have.
#[cold]
fn window_at_end(image: &[u8], at: usize) -> u64
    requires { at < 2 ^ 32 }
    ensures { result ≡ code_at 32 (8 * at) image.now }
{
    let bytes = [
        byte_at(image, at),
        byte_at(image, at + 1),
        byte_at(image, at + 2),
        byte_at(image, at + 3),
    ];
    u64::from(u32::from_le_bytes(bytes))
}

// Writes 32 bits of x from byte `at` on: one store, but near the end. With `get_mut` what the image then holds did not prove.
fn put_window(image: &mut [u8], at: usize, x: u64)
    requires { at < 2 ^ 32 }
    ensures { image.new ≡ written 32 (8 * at) x image.old }
{
    if at + 4 <= image.len() {
        image[at..at + 4].copy_from_slice(&x.to_le_bytes()[..4]);
    } else {
        put_window_at_end(image, at, x);
    }
}

// The same where bytes are missing: of what has no place nothing is written.
#[cold]
fn put_window_at_end(image: &mut [u8], at: usize, x: u64)
    requires { at < 2 ^ 32 }
    ensures { image.new ≡ written 32 (8 * at) x image.old }
{
    let bytes = x.to_le_bytes();
    put_byte(image, at, bytes[0]);
    put_byte(image, at + 1, bytes[1]);
    put_byte(image, at + 2, bytes[2]);
    put_byte(image, at + 3, bytes[3]);
}

// The code in the `bits` bits from `start` upward: 16 bits at most, each 0 past the end.
pub fn read_code(image: &[u8], start: u32, bits: u32) -> u16
    ensures { result ≡ code_at (width bits) start image.now }
{
    let x = window(image, (start / 8) as usize) >> (start % 8);
    (x % (1 << bits.min(16))) as u16
}

// Writes the low `bits` bits of a code, 16 at most, from `start` upward, and leaves every other bit.
pub fn write_code(image: &mut [u8], start: u32, bits: u32, code: u16)
    ensures { image.new ≡ written (width bits) start code image.old }
{
    let n = bits.min(16);
    let at = (start / 8) as usize;
    let shift = start % 8;
    let x = window(image, at);
    let low = x % (1 << shift);
    let run = u64::from(code) % (1 << n);
    let high = x >> (shift + n);
    put_window(image, at, (((high << n) | run) << shift) | low);
}
