// A listing: its front, the check of all its records, and the view of one.
ghost use Rattle.std.specs.Prelude.{◌≡◌, ◌+◌, ◌*◌, ◌≤◌, length};
ghost use Rattle.definitions.specs.Instr.{record_length, record_at, good_record};
ghost use Rattle.definitions.specs.Listing.{front_length, listing_length, records_from, all_good, read_listing, view, part_of};
ghost use Rattle.instr.specs.Refusals.{answer};
ghost use Rattle.instr.specs.Values.{front_fits, front_written, counted, front_is, viewed_is};

use crate::records::Record;
use crate::refusals::{Reason, Refusal};
use crate::{numbers, records};

// A listing begins with its version and the length of what follows.
pub const VERSION: u8 = 1;

const LENGTH_AT: usize = 1;

// Record n begins at FRONT + Record::LENGTH * n, written out where it is used: a function of n would have to ask that this fits.
pub const FRONT: usize = 5;

pub const MOST_RECORDS: usize = 1048576;

// The front of a listing of so many records; what follows it stays. A part that is too short, or a count that no listing may have,
// leaves the part whole, and the answer is false.
pub fn write_front(out: &mut [u8], count: u32) -> bool
    ensures { (result ≡ front_fits count out.old) × (out.new ≡ front_written count out.old) }
{
    let n = count as usize;
    if MOST_RECORDS < n {
        return false;
    }
    if out.len() < FRONT {
        return false;
    }
    out[0] = VERSION;
    numbers::put_u32(out, LENGTH_AT, (Record::LENGTH * n) as u32);
    true
}

// Version, length, a part record, too many records: the count, where the front is that of a listing.
fn check_front(s: &[u8]) -> Option<usize>
    ensures { result ≡ front_is s.now }
{
    if s.len() < FRONT || s[0] != VERSION {
        return None;
    }
    let rest = s.len() - FRONT;
    if numbers::u32_at(s, LENGTH_AT) != rest || rest % Record::LENGTH != 0 {
        return None;
    }
    let count = rest / Record::LENGTH;
    (count <= MOST_RECORDS).then_some(count)
}

// Whether a listing may hold the record that begins at a place.
fn is_good(s: &[u8], at: usize) -> bool
    requires { at + record_length ≤ length s.now }
    ensures { result ≡ good_record (record_at s.now at) }
{
    records::good_record(records::read_inside(s, at))
}

// Every record from the front on.
fn check_records(s: &[u8], count: usize) -> bool
    requires { listing_length count ≤ length s.now }
    ensures { result ≡ all_good (records_from count s.now front_length) }
{
    for n in 0..count {
        if !is_good(s, FRONT + Record::LENGTH * n) {
            return false;
        }
    }
    true
}

// A whole slice as a listing: how many records it has, or 30.
pub fn check_listing(s: &[u8]) -> Result<usize, Refusal>
    ensures { answer result ≡ counted (read_listing s.now) }
{
    match check_front(s) {
        Some(count) if check_records(s, count) => Ok(count),
        _ => Err(Refusal::of(Reason::Listing)),
    }
}

// Whether record n of a listing can be seen; or 30; or 22, with the number that was asked for.
pub fn view_check(s: &[u8], n: usize) -> Result<(), Refusal>
    ensures { viewed_is result s.now n ≡ view s.now n }
{
    let count = check_listing(s)?;
    if n < count {
        Ok(())
    } else {
        Err(Refusal::at(Reason::Record, n))
    }
}

// Record n, as the part of the listing itself; an empty part where it is refused.
pub fn view(s: &[u8], n: usize) -> &[u8]
    ensures { result.now ≡ part_of (view s.now n) }
{
    if view_check(s, n).is_err() {
        return &s[0..0];
    }
    let from = FRONT + Record::LENGTH * n;
    &s[from..from + Record::LENGTH]
}
