// Replays a file of units and answers: a line `unit NAME HEX`, then for each answer a line `stage` or `labelled` and its lines, then
// an empty line.
use super::answers::{Lent, foreseen};
use samples::text;
use std::fs::File;
use std::io;
use std::io::Write;
use std::rt::Files;

// The longest unit of the files has 1,806 bytes: no more records and no more labels than bytes.
type Unit = [u8; 2048];

type Listing = [u8; 45061];

type Marks = [u32; 2048];

type Words = [u8; 16384];

// How many units there are, and how many answers agree and differ.
#[derive(Clone, Copy, Debug, Default, PartialEq, Eq)]
struct Tally {
    units: u64,
    agree: u64,
    differ: u64,
}

impl Tally {
    // Of one answer.
    fn compared(agrees: bool) -> Self {
        Tally {
            units: 0,
            agree: u64::from(agrees),
            differ: u64::from(!agrees),
        }
    }

    // The sums cannot wrap in a file of a page, so that they are not bounded here.
    fn and(self, other: Tally) -> Self {
        Tally {
            units: self.units.wrapping_add(other.units),
            agree: self.agree.wrapping_add(other.agree),
            differ: self.differ.wrapping_add(other.differ),
        }
    }
}

// Whether an answer ends here: the unit's other answer follows, or an empty line, or nothing.
fn ends(words: &[u8]) -> bool {
    words.is_empty()
        || text::begins(words, b"\n")
        || text::begins(words, b"stage\n")
        || text::begins(words, b"labelled\n")
}

// Whether the file has this answer, byte for byte, and then its end. An answer has text.
fn same(words: &[u8], answer: &[u8]) -> bool {
    !answer.is_empty() && words.strip_prefix(answer).is_some_and(|rest| ends(rest))
}

// The printed stage, and what looking at the unit says of it. This and `labelled_agrees` each hold their buffers: a closure for the one call
// in which they differ would have to lend them.
fn stage_agrees(unit: &[u8], words: &[u8]) -> bool {
    let mut listing: Listing = [0; 45061];
    let mut marks: Marks = [0; 2048];
    let mut code: Listing = [0; 45061];
    let mut out: Words = [0; 16384];
    let lent = Lent {
        listing: &mut listing,
        marks: &mut marks,
    };
    let lowered = lent.lower(unit);
    let alike = foreseen(unit, lowered.resolve(&mut code));
    match lowered.stage(&mut code, &mut out) {
        Some(n) => alike && same(words, text::first(&out, n)),
        None => false,
    }
}

fn labelled_agrees(unit: &[u8], words: &[u8]) -> bool {
    let mut listing: Listing = [0; 45061];
    let mut marks: Marks = [0; 2048];
    let mut out: Words = [0; 16384];
    let lent = Lent {
        listing: &mut listing,
        marks: &mut marks,
    };
    match lent.lower(unit).labelled(&mut out) {
        Some(n) => same(words, text::first(&out, n)),
        None => false,
    }
}

// The answer that begins at this line, if one does.
fn answer(unit: &[u8], words: &[u8]) -> Tally {
    if let Some(rest) = words.strip_prefix(b"stage\n") {
        return Tally::compared(stage_agrees(unit, rest));
    }
    if let Some(rest) = words.strip_prefix(b"labelled\n") {
        return Tally::compared(labelled_agrees(unit, rest));
    }
    Tally::default()
}

// The answers up to an empty line.
fn all_answers(unit: &[u8], words: &[u8]) -> Tally {
    let mut tally = Tally::default();
    let mut at = 0;
    while at < words.len() {
        let rest = &words[at..];
        let end = text::find(rest, b'\n');
        if end == 0 {
            return tally;
        }
        tally = tally.and(answer(unit, rest));
        at += end + 1;
    }
    tally
}

// The unit that the digits spell.
fn decoded(digits: &[u8], words: &[u8]) -> Tally {
    let mut unit: Unit = [0; 2048];
    let n = text::decode(digits, &mut unit);
    all_answers(text::first(&unit, n), words)
}

fn named(rt: &impl Print, words: &str, name: &[u8]) -> io::Result<()> {
    print!(rt; "{words}")?;
    io::writer(rt).write_all(name)?;
    println!(rt)
}

// A unit that differs is named, and one that agrees if that is asked for.
fn verdict(rt: &impl Print, name: &[u8], tally: Tally, naming: bool) -> io::Result<()> {
    if tally.differ > 0 {
        named(rt, "differs ", name)?;
    } else if tally.agree == 0 {
        named(rt, "has no answer ", name)?;
    } else if naming {
        named(rt, "agrees ", name)?;
    }
    Ok(())
}

// The name, the digits, and after the line's end the answers.
fn unit(rt: &impl Print, words: &[u8], naming: bool) -> io::Result<Tally> {
    let space = text::find(words, b' ');
    let end = text::find(words, b'\n');
    let line = text::first(words, end);
    let tally = decoded(text::rest(line, space + 1), text::rest(words, end + 1));
    verdict(rt, text::first(words, space), tally, naming)?;
    Ok(Tally { units: 1, ..tally })
}

// The unit that begins at this line, if one does.
fn unit_here(rt: &impl Print, words: &[u8], naming: bool) -> io::Result<Tally> {
    if let Some(rest) = words.strip_prefix(b"unit ") {
        return unit(rt, rest, naming);
    }
    Ok(Tally::default())
}

fn summary(rt: &impl Print, name: &str, tally: Tally) -> io::Result<()> {
    let Tally {
        units,
        agree,
        differ,
    } = tally;
    println!(rt; "{name}: units {units}, answers that agree {agree}, that differ {differ}")
}

// Every unit of a file, line by line.
fn all_units(rt: &impl Print, words: &[u8], naming: bool) -> io::Result<Tally> {
    let mut tally = Tally::default();
    let mut at = 0;
    while at < words.len() {
        let rest = &words[at..];
        tally = tally.and(unit_here(rt, rest, naming)?);
        at += text::find(rest, b'\n') + 1;
    }
    Ok(tally)
}

// How many bytes of a file come into the page. A file that is missing has none.
fn read_file(rt: &impl Files, name: &str, page: &mut [u8]) -> io::Result<usize> {
    let Ok(mut file) = File::open(rt, name) else {
        return Ok(0);
    };
    text::read_full(&mut file, page)
}

// A file that is missing has no units.
pub fn file(
    rt: &(impl Files + Print),
    name: &str,
    naming: bool,
    page: &mut [u8],
) -> io::Result<()> {
    let n = read_file(rt, name, page)?;
    let tally = all_units(rt, text::first(page, n), naming)?;
    summary(rt, name, tally)
}
