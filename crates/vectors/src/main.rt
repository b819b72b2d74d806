// Document 01's cases that are executed: recorded answers replayed through the entry points, units at the limits, and buffers with
// just enough room or a little less.
#![tactic(auto)]

mod answers;
mod limits;
mod replay;
mod room;
mod show;

use std::io;
use std::rt::Files;

// A whole file of units, or a unit at a limit, or a text.
const PAGE: usize = 1400000;

// Seven bytes more than the largest unit here takes.
const LISTING: usize = 4325256;

fn run(rt: &(impl Files + Print), page: &mut [u8], listing: &mut [u8]) -> io::Result<()> {
    replay::file(rt, "recorded.txt", false, page)?;
    replay::file(rt, "cases.txt", true, page)?;
    replay::file(rt, "examples.txt", true, page)?;
    limits::all(rt, page, listing)?;
    room::all(rt, page, listing)
}

// Both buffers stand on the heap: with them the stack would be full.
fn main(rt: HostRuntime) -> io::Result<()> {
    let mut page = vec![in rt.alloc(); 0; PAGE]?;
    let mut listing = vec![in rt.alloc(); 0; LISTING]?;
    run(&rt, &mut page, &mut listing)
}
