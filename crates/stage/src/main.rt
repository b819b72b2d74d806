// Reads a unit from standard input and prints its stage, document 01's printed form.
#![tactic(auto)]

use instr::refusals::Reason;
use samples::text;
use std::io;
use std::io::Write;

// One byte more than the longest unit, so that a longer input shows.
type Unit = [u8; 2049];

// The text of a unit of 2,048 bytes: at most 2,048 lines of at most 56 bytes, and the first.
type Page = [u8; 131072];

fn message(rt: &impl Eprint, text: &str) -> io::Result<()> {
    eprintln!(rt; "stage: {text}")
}

// The whole text at once: nothing is printed before all of it is there.
fn print_all(rt: &(impl Print + Eprint), text: &[u8]) -> io::Result<()> {
    if io::writer(rt).write_all(text).is_ok() {
        return Ok(());
    }
    message(rt, "the output could not be written")
}

fn print_stage(rt: &(impl Print + Eprint), input: &[u8], page: &mut [u8]) -> io::Result<()> {
    match show::show(input, page) {
        Ok(length) => print_all(rt, &page[..length]),
        Err(q) if q.reason == Reason::Listing => message(rt, "the listing is none"),
        Err(_) => message(rt, "the text is too long"),
    }
}

fn run(rt: &(impl Input + Print + Eprint), input: &mut [u8], page: &mut [u8]) -> io::Result<()> {
    match text::read_full(&mut rt.reader(), input) {
        Ok(n) => print_stage(rt, &input[..n], page),
        Err(_) => message(rt, "the input could not be read"),
    }
}

fn main(rt: HostRuntime) -> io::Result<()> {
    let mut input: Unit = [0; 2049];
    let mut page: Page = [0; 131072];
    run(&rt, &mut input, &mut page)
}
