// Big-endian numbers in the bytes of a slice. Past the end of a slice stand zeros, so a place may be any number.
ghost use Rattle.std.specs.Prelude.{◌≡◌, ◌+◌, ◌≤◌, ◌<◌, ◌^◌, leb, length, get_or};
ghost use Rattle.definitions.specs.Bytes.{number};
ghost use Rattle.definitions.specs.Instr.{record_length};
ghost use Rattle.instr.specs.Values.{stored};

// Whether the w bytes from `at` on are all in the slice.
pub(crate) fn inside(s: &[u8], at: usize, w: usize) -> bool
    ensures { result ≡ leb (at + w) (length s.now) }
{
    at <= s.len() && w <= s.len() - at
}

// The byte k places after `at`. Two numbers, so that their sum need not fit.
fn byte_after(s: &[u8], at: usize, k: usize) -> u8
    ensures { result ≡ get_or s.now (at + k) 0 }
{
    if at < s.len() && k < s.len() - at {
        s[at + k]
    } else {
        0
    }
}

// The number in the w bytes that begin k places after `at`, each byte tested singly: the plain form. The fast one stands beside it, since a
// listing that passed its check is read without a test for each byte.
pub(crate) fn number_after(s: &[u8], at: usize, k: usize, w: usize) -> u64
    requires { (k ≤ record_length) × (w ≤ 8) }
    ensures { (result ≡ number w s.now (at + k)) × (result < 256 ^ w) }
{
    let mut v: u64 = 0;
    for i in 0..w {
        v = v * 256 + u64::from(byte_after(s, at, k + i));
    }
    v
}

// The fast form, for W bytes that are in the slice: the compiler makes one load of them.
pub(crate) fn number_inside<const W: usize>(s: &[u8], at: usize) -> u64
    requires { (at + W ≤ length s.now) × (W ≤ 8) }
    ensures { (result ≡ number W s.now at) × (result < 256 ^ W) }
{
    let mut v: u64 = 0;
    for i in 0..W {
        v = v * 256 + u64::from(s[at + i]);
    }
    v
}

// The number in the W bytes from `at` on.
pub fn number_at<const W: usize>(s: &[u8], at: usize) -> u64
    requires { W ≤ 8 }
    ensures { (result ≡ number W s.now at) × (result < 256 ^ W) }
{
    if inside(s, at, W) {
        return number_inside::<W>(s, at);
    }
    number_after(s, at, 0, W)
}

// The byte at a place.
pub fn byte_at(s: &[u8], at: usize) -> u8
    ensures { result ≡ get_or s.now at 0 }
{
    byte_after(s, at, 0)
}

// This and the two below are no one function of W: their results differ in type, and each caller would have to name both.
pub fn u16_at(s: &[u8], at: usize) -> u16
    ensures { (result ≡ number 2 s.now at) × (result < 2 ^ 16) }
{
    number_at::<2>(s, at) as u16
}

// A length, an index or a place, so a usize.
pub fn u32_at(s: &[u8], at: usize) -> usize
    ensures { (result ≡ number 4 s.now at) × (result < 2 ^ 32) }
{
    number_at::<4>(s, at) as usize
}

pub fn u64_at(s: &[u8], at: usize) -> u64
    ensures { (result ≡ number 8 s.now at) × (result < 2 ^ 64) }
{
    number_at::<8>(s, at)
}

/// Two bytes at a place that is in the slice, as a number.
pub fn u16_inside(s: &[u8], at: usize) -> u16
    requires { at + 2 ≤ length s.now }
    ensures { (result ≡ number 2 s.now at) × (result < 2 ^ 16) }
{
    number_inside::<2>(s, at) as u16
}

/// Four bytes at a place that is in the slice, as a number.
pub fn u32_inside(s: &[u8], at: usize) -> usize
    requires { at + 4 ≤ length s.now }
    ensures { (result ≡ number 4 s.now at) × (result < 2 ^ 32) }
{
    number_inside::<4>(s, at) as usize
}

// A number in w bytes of a part, from `at` on: the last byte first.
pub fn put_number(part: &mut [u8], at: usize, w: usize, v: u64)
    requires { at + w ≤ length part.old }
    ensures { part.new ≡ stored at w v part.old }
{
    let mut rest = v;
    for k in 0..w {
        part[at + w - 1 - k] = (rest % 256) as u8;
        rest /= 256;
    }
}

/// One byte at a place of a part; the others stay.
pub fn put_u8(part: &mut [u8], at: usize, v: u8)
    requires { at + 1 ≤ length part.old }
    ensures { part.new ≡ stored at 1 v part.old }
{
    part[at] = v;
}

/// A number stored in two bytes of a part, the highest first; the others stay. Each width is one store.
pub fn put_u16(part: &mut [u8], at: usize, v: u16)
    requires { at + 2 ≤ length part.old }
    ensures { part.new ≡ stored at 2 v part.old }
{
    part[at..at + 2].copy_from_slice(&v.to_be_bytes());
}

/// The same in four bytes.
pub fn put_u32(part: &mut [u8], at: usize, v: u32)
    requires { at + 4 ≤ length part.old }
    ensures { part.new ≡ stored at 4 v part.old }
{
    part[at..at + 4].copy_from_slice(&v.to_be_bytes());
}

/// The same in eight bytes.
pub fn put_u64(part: &mut [u8], at: usize, v: u64)
    requires { at + 8 ≤ length part.old }
    ensures { part.new ≡ stored at 8 v part.old }
{
    part[at..at + 8].copy_from_slice(&v.to_be_bytes());
}
