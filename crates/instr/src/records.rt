// A record of a listing, and its bytes.
ghost use Rattle.std.specs.Prelude.{◌≡◌, ◌+◌, ◌≤◌, leb, length};
ghost use Rattle.definitions.specs.Instr.{record_length, record_at, good_record};
ghost use Rattle.instr.specs.Values.{instr_of, written};

use crate::{numbers, tables};

#[derive(Clone, Copy, Debug, PartialEq, Eq)]
pub struct Record {
    pub tag: u8,
    pub small: u8,
    pub first: u16,
    pub second: u16,
    pub line: u16,
    pub flags: u16,
    pub value: u64,
    pub node: u32,
}

// Its length in bytes, and where each field begins.
impl Record {
    pub const LENGTH: usize = 22;

    pub const TAG: usize = 0;

    pub const SMALL: usize = 1;

    pub const FIRST: usize = 2;

    pub const SECOND: usize = 4;

    pub const LINE: usize = 6;

    pub const FLAGS: usize = 8;

    pub const VALUE: usize = 10;

    pub const NODE: usize = 18;
}

// A record at the front of a part; what follows it stays. A part that is too short stays whole, and the answer is false.
pub fn write_record(part: &mut [u8], r: Record) -> bool
    ensures { (result ≡ leb record_length (length part.old)) × (part.new ≡ written (instr_of r) part.old) }
{
    if part.len() < Record::LENGTH {
        return false;
    }
    numbers::put_u8(part, Record::TAG, r.tag);
    numbers::put_u8(part, Record::SMALL, r.small);
    numbers::put_u16(part, Record::FIRST, r.first);
    numbers::put_u16(part, Record::SECOND, r.second);
    numbers::put_u16(part, Record::LINE, r.line);
    numbers::put_u16(part, Record::FLAGS, r.flags);
    numbers::put_u64(part, Record::VALUE, r.value);
    numbers::put_u32(part, Record::NODE, r.node);
    true
}

// The record at a place of any slice, each byte tested singly: the plain form.
fn read_plain(s: &[u8], at: usize) -> Record
    ensures { instr_of result ≡ record_at s.now at }
{
    Record {
        tag: numbers::number_after(s, at, Record::TAG, 1) as u8,
        small: numbers::number_after(s, at, Record::SMALL, 1) as u8,
        first: numbers::number_after(s, at, Record::FIRST, 2) as u16,
        second: numbers::number_after(s, at, Record::SECOND, 2) as u16,
        line: numbers::number_after(s, at, Record::LINE, 2) as u16,
        flags: numbers::number_after(s, at, Record::FLAGS, 2) as u16,
        value: numbers::number_after(s, at, Record::VALUE, 8),
        node: numbers::number_after(s, at, Record::NODE, 4) as u32,
    }
}

// The fast form, for a record that is in the slice.
pub(crate) fn read_inside(s: &[u8], at: usize) -> Record
    requires { at + record_length ≤ length s.now }
    ensures { instr_of result ≡ record_at s.now at }
{
    Record {
        tag: s[at + Record::TAG],
        small: s[at + Record::SMALL],
        first: numbers::u16_inside(s, at + Record::FIRST),
        second: numbers::u16_inside(s, at + Record::SECOND),
        line: numbers::u16_inside(s, at + Record::LINE),
        flags: numbers::u16_inside(s, at + Record::FLAGS),
        value: numbers::number_inside::<8>(s, at + Record::VALUE),
        node: numbers::number_inside::<4>(s, at + Record::NODE) as u32,
    }
}

// The record at a place of any slice; past the end stand zeros.
pub fn read_record(s: &[u8], at: usize) -> Record
    ensures { instr_of result ≡ record_at s.now at }
{
    if numbers::inside(s, at, Record::LENGTH) {
        return read_inside(s, at);
    }
    read_plain(s, at)
}

/// Whether a listing may hold a record: its tag is one that the base emits, and its unused fields are 0, which is to say that each field is
/// at most its mark. No test waits for another, so that the compiler makes no branch of each.
pub fn good_record(r: Record) -> bool
    ensures { result ≡ good_record (instr_of r) }
{
    let row = tables::row_of(r.tag);
    (0 < tables::size_of(r.tag))
        & (r.small <= row.small)
        & (r.first <= row.first)
        & (r.second <= row.second)
        & (r.line <= row.line)
        & (r.flags <= row.flags)
        & (r.value <= row.value)
}
