// Reads units and prints what `read_unit` says of each: those of the input, a name and hexadecimal digits to a line, and then
// units at the limits.
#![tactic(auto)]

ghost use Rattle.std.specs.Prelude.{◌≤◌, length};

mod limits;

use samples::text;
use std::io;
use std::io::Write;

fn show(rt: &impl Print, unit: &[u8]) -> io::Result<()> {
    match ir::read_unit(unit) {
        Ok(read) => println!(rt; " reads {} {}", read.returns, read.end),
        Err(refusal) => println!(rt; " {refusal}"),
    }
}

// The first n bytes as a unit.
fn show_first(rt: &impl Print, out: &[u8], n: usize) -> io::Result<()> {
    if n <= out.len() {
        show(rt, &out[..n])?;
    }
    Ok(())
}

// The unit that the digits spell, of which the first 2,048 bytes are taken.
fn decoded(rt: &impl Print, digits: &[u8]) -> io::Result<()> {
    let mut unit = [0u8; 2048];
    let n = text::decode(digits, &mut unit);
    show_first(rt, &unit, n)
}

fn line(rt: &impl Print, words: &[u8]) -> io::Result<()> {
    let space = text::find(words, b' ');
    io::writer(rt).write_all(&words[..space])?;
    if space < words.len() {
        decoded(rt, &words[space + 1..])?;
    }
    Ok(())
}

fn is_newline(b: &u8) -> bool {
    *b == b'\n'
}

fn lines(rt: &impl Print, words: &[u8]) -> io::Result<()> {
    for words in words.split(is_newline) {
        line(rt, words)?;
    }
    Ok(())
}

fn main(rt: HostRuntime) -> io::Result<()> {
    let mut words = [0u8; 65536];
    let n = text::read_full(&mut rt.reader(), &mut words)?;
    lines(&rt, &words[..n])?;
    limits::show_all(&rt)
}
