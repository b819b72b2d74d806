// Units at the limits of reading.
use super::show_first;
use samples::made;
use std::io;

// One byte more than a unit may have.
type Page = [u8; 1048577];

fn show(rt: &impl Print, name: &str, page: &[u8], n: usize) -> io::Result<()> {
    print!(rt; "{name}")?;
    show_first(rt, page, n)
}

fn lengths(rt: &impl Print, page: &mut [u8]) -> io::Result<()> {
    let most = made::flat(page, 1, 209712);
    show(rt, "1048576-bytes", page, most)?;
    let more = made::flat(page, 2, 209711);
    show(rt, "1048577-bytes", page, more)?;
    let flat = made::flat(page, 0, 100000);
    show(rt, "100000-statements", page, flat)
}

fn depths(rt: &impl Print, page: &mut [u8]) -> io::Result<()> {
    let blocks = made::blocks(page, 199);
    show(rt, "200-statements-deep", page, blocks)?;
    let deeper = made::blocks(page, 200);
    show(rt, "201-statements-deep", page, deeper)?;
    let casts = made::casts(page, 198);
    show(rt, "200-expressions-deep", page, casts)?;
    let further = made::casts(page, 199);
    show(rt, "201-expressions-deep", page, further)
}

fn calls(rt: &impl Print, page: &mut [u8]) -> io::Result<()> {
    let call = made::call(page, 255, 255);
    show(rt, "255-parameters-255-arguments", page, call)?;
    let refused = made::call(page, 255, 256);
    show(rt, "255-parameters-256-arguments", page, refused)
}

// The whole page is lent: a parameter's length needs no computing.
fn show_page(rt: &impl Print, page: &mut Page) -> io::Result<()> {
    lengths(rt, page)?;
    depths(rt, page)?;
    calls(rt, page)
}

pub fn show_all(rt: &impl Print) -> io::Result<()> {
    let mut page: Page = [0; 1048577];
    show_page(rt, &mut page)
}
