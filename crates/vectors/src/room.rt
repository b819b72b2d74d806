// Lent buffers with a pattern that must be there afterwards: behind what was written, and everywhere after a refusal.
use super::answers::{Lent, Lowered, listing_end};
use super::show;
use samples::{made, text};
use std::io;

const BYTE: u8 = 0xA5;

const WORD: u32 = 0xA5A5A5A5;

// Two words and five bytes more than the units here take.
type Marks = [u32; 65538];

type Code = [u8; 120];

// How many bytes and words are lent to lowering 65,534 branches, which takes three records for each and two labels more than branches.
const LOWERINGS: [(&str, usize, usize); 6] = [
    ("room to spare", 4325256, 65538),
    ("exactly enough", 4325249, 65536),
    ("a byte short", 4325248, 65536),
    ("a word short", 4325249, 65535),
    ("both short", 4325248, 65535),
    ("no room", 0, 0),
];

// How many bytes are lent to resolving a While on false with two Nops, which takes five records.
const RESOLVINGS: [(&str, usize); 4] = [
    ("room to spare", 120),
    ("exactly enough", 115),
    ("a byte short", 114),
    ("no room", 0),
];

// How many bytes or words from `from` on hold the pattern.
fn held<T: PartialEq + Copy>(lent: &[T], from: usize, pattern: T) -> usize {
    let rest = lent.get(from..).unwrap_or(&[]);
    rest.iter().filter(|&&x| x == pattern).count()
}

// The answer of lowering, and what is left of the pattern behind it.
fn lowered(rt: &impl Print, unit: &[u8], lent: Lent) -> io::Result<()> {
    let left = lent.lower(unit);
    let (end, labels) = match left.answer {
        Err(q) => {
            print!(rt; "{q}")?;
            (0, 0)
        }
        Ok(c) => {
            show::labelled(rt, c)?;
            (listing_end(c.count as usize), c.labels as usize)
        }
    };
    let bytes = held(left.listing, end, BYTE);
    let words = held(left.marks, labels, WORD);
    println!(rt; "; bytes with the pattern {bytes}, words {words}")
}

// The answer of resolving, likewise.
fn resolved(rt: &impl Print, lowered: Lowered, code: &mut [u8]) -> io::Result<()> {
    code.fill(BYTE);
    let end = match lowered.resolve(code) {
        Err(q) => {
            print!(rt; "{q}")?;
            0
        }
        Ok(count) => {
            print!(rt; "resolved {count}")?;
            listing_end(count)
        }
    };
    let bytes = held(code, end, BYTE);
    println!(rt; "; bytes with the pattern {bytes}")
}

fn lowering(rt: &impl Print, unit: &[u8], listing: &mut [u8], marks: &mut [u32]) -> io::Result<()> {
    for (name, bytes, words) in LOWERINGS {
        print!(rt; "lowering, {name}: bytes lent {bytes}, words lent {words}; ")?;
        // Filled here and not in `lowered`: where a function writes through the fields of `Lent` and then moves it, the check fails by a bug
        // of its own.
        listing.fill(BYTE);
        marks.fill(WORD);
        if bytes <= listing.len() && words <= marks.len() {
            let lent = Lent {
                listing: &mut listing[..bytes],
                marks: &mut marks[..words],
            };
            lowered(rt, unit, lent)?;
        }
    }
    Ok(())
}

fn resolving(rt: &impl Print, lowered: Lowered, code: &mut [u8]) -> io::Result<()> {
    for (name, bytes) in RESOLVINGS {
        print!(rt; "resolving, {name}: bytes lent {bytes}; ")?;
        if bytes <= code.len() {
            resolved(rt, lowered, &mut code[..bytes])?;
        }
    }
    Ok(())
}

pub fn all(rt: &impl Print, page: &mut [u8], listing: &mut [u8]) -> io::Result<()> {
    let mut marks: Marks = [0; 65538];
    let mut code: Code = [0; 120];
    let n = made::branches(page, 65534);
    lowering(rt, text::first(page, n), listing, &mut marks)?;
    let n = made::while_nops(page, 2);
    let lent = Lent {
        listing,
        marks: &mut marks,
    };
    resolving(rt, lent.lower(text::first(page, n)), &mut code)
}
