// Units as text: a name and hexadecimal digits to a line.
ghost use Rattle.std.specs.Prelude.{◌≤◌, ◌<◌, length, IfOk, IfSome};

use std::io;
use std::io::Read;

// Reads until the buffer is full or the input ends: how many bytes it has then. No method of the library does so into a slice.
pub fn read_full(input: &mut impl Read, out: &mut [u8]) -> io::Result<usize>
    ensures { IfOk result (λ n. n ≤ length out.new) }
{
    let mut n = 0;
    while n < out.len() {
        let got = input.read(&mut out[n..])?;
        if got == 0 {
            break;
        }
        n += got;
    }
    Ok(n)
}

// The value of a hexadecimal digit, a capital above 9.
fn digit(b: u8) -> Option<u8>
    ensures { IfSome result (λ d. d < 16) }
{
    match b {
        b'0'..=b'9' => Some(b - b'0'),
        b'A'..=b'F' => Some(b - b'A' + 10),
        _ => None,
    }
}

// The byte of two digits; 0 for any other bytes.
fn pair(high: u8, low: u8) -> u8 {
    match (digit(high), digit(low)) {
        (Some(h), Some(l)) => h * 16 + l,
        _ => 0,
    }
}

// Where the byte `b` first stands, or the end.
pub fn find(text: &[u8], b: u8) -> usize
    ensures { result ≤ length text.now }
{
    text.iter().position(|&x| x == b).unwrap_or(text.len())
}

// The bytes that the digits spell, as many as fit.
pub fn decode(digits: &[u8], unit: &mut [u8]) -> usize
    ensures { result ≤ length unit.new }
{
    for (byte, two) in unit.iter_mut().zip(digits.chunks_exact(2)) {
        *byte = pair(two[0], two[1]);
    }
    unit.len().min(digits.len() / 2)
}

// The first n bytes; none where there are fewer.
pub fn first(text: &[u8], n: usize) -> &[u8] {
    text.get(..n).unwrap_or(&[])
}

// What follows the first n bytes; nothing where there are fewer.
pub fn rest(text: &[u8], n: usize) -> &[u8] {
    text.get(n..).unwrap_or(&[])
}

// Whether the text begins with these words.
pub fn begins(text: &[u8], words: &[u8]) -> bool {
    text.starts_with(words)
}
