// A pass over a listing that maps the fields that carry a label or a distance, whatever it makes of them; every other byte stays.
ghost use Rattle.std.specs.Prelude.{◌≡◌, ◌+◌, ◌≤◌, length, get_or, Ok};
ghost use Rattle.definitions.specs.Tag.{row_of};
ghost use Rattle.definitions.specs.Instr.{record_length, record_at};
ghost use Rattle.definitions.specs.Listing.{records_of, read_listing};
ghost use Rattle.definitions.specs.Stage.{over, coded, resolve_to};
ghost use Rattle.instr.specs.Refusals.{answer};
ghost use Rattle.instr.specs.Values.{row_marks, counted};
ghost use Rattle.resolve.specs.Mapping.{Mapped, map_field, map_fields, map_records, try_records, rewrite};
ghost use Rattle.resolve.specs.Values.{extra_of, resolving};

use instr::numbers::{put_u16, u16_inside};
use instr::records::Record;
use instr::refusals::{Reason, Refusal};
use instr::tables::Row;
use instr::{listings, tables};

// A record's first or its second, by the extra number that a refusal has for it.
#[derive(Clone, Copy, Debug, PartialEq, Eq)]
pub enum Operand {
    First = 0,
    Second = 1,
}

// The record that carries a field: its tag, where its instruction starts, and its number.
#[derive(Clone, Copy, Debug, PartialEq, Eq)]
pub struct Carrier {
    pub tag: u8,
    pub start: usize,
    pub number: usize,
}

impl Carrier {
    // The refusal of one of its fields.
    pub fn refusal(self, reason: Reason, operand: Operand) -> Refusal
        ensures { result ≡ record { reason = reason; place = self.number; extra = extra_of operand } }
    {
        Refusal {
            reason,
            place: self.number,
            extra: operand as usize,
        }
    }
}

// What becomes of a field that carries a label or a distance.
pub trait Mapping {
    // The same, in the words of the definitions.
    ghost maps: { Self → Mapped };

    fn map(&self, carrier: Carrier, operand: Operand, field: u16) -> Result<u16, Refusal>
        ensures { answer result ≡ maps self.now carrier.tag carrier.start carrier.number (extra_of operand) field };
}

// A field, mapped where the row of the tag says that it carries something. Always inlined, as
// `map_fields` is: out of line each answer goes through memory, and storing takes twice as long.
#[tactic(auto, unfolding(crate::specs::Mapping::map_field, instr::specs::Refusals::answer))]
#[inline(always)]
fn map_field<M: Mapping>(
    mapping: &M,
    carries: bool,
    carrier: Carrier,
    operand: Operand,
    field: u16,
) -> Result<u16, Refusal>
    ensures { answer result ≡ map_field (M.maps mapping.now) carries carrier.tag carrier.start carrier.number (extra_of operand) field }
{
    if carries {
        mapping.map(carrier, operand, field)
    } else {
        Ok(field)
    }
}

// The first, then the second, of the record that begins at a place of a listing.
#[inline(always)]
fn map_fields<M: Mapping>(
    mapping: &M,
    row: Row,
    carrier: Carrier,
    listing: &[u8],
    at: usize,
) -> Result<(u16, u16), Refusal>
    requires inside { at + record_length ≤ length listing.now }
    requires tag { carrier.tag ≡ get_or listing.now at 0 }
    requires row { row ≡ row_marks (row_of carrier.tag) }
    ensures { answer result ≡ map_fields (M.maps mapping.now) carrier.start carrier.number (record_at listing.now at) }
{
    let first = u16_inside(listing, at + Record::FIRST);
    let first = map_field(mapping, row.first != 0, carrier, Operand::First, first)?;
    let second = u16_inside(listing, at + Record::SECOND);
    let second = map_field(mapping, row.second != 0, carrier, Operand::Second, second)?;
    Ok((first, second))
}

// Every field of every record. Nothing is written, so that a refusal leaves the buffer as it was. A record whose tag carries nothing is
// passed by its tag alone. `write_fields` goes the same way with another step: one loop over a closure would say of the buffer, through
// the closure's own clauses, no less than the two say, and less plainly.
#[tactic(auto, using(crate::proofs::Passes::few_records, crate::proofs::Passes::whole_listing))]
fn check_fields<M: Mapping>(mapping: &M, listing: &[u8], count: usize) -> Result<(), Refusal>
    requires { answer (Ok count) ≡ counted (read_listing listing.now) }
    ensures { answer result ≡ try_records (M.maps mapping.now) 0 0 (records_of listing.now) }
{
    let mut start = 0;
    for number in 0..count {
        let at = listings::FRONT + Record::LENGTH * number;
        let tag = listing[at];
        let row = tables::row_of(tag);
        if (row.first | row.second) != 0 {
            let carrier = Carrier { tag, start, number };
            map_fields(mapping, row, carrier, listing, at)?;
        }
        start += usize::from(tables::size_of(tag));
    }
    Ok(())
}

// The listing at the front of the buffer; what follows it stays. Byte by byte: `copy_from_slice` would
// call `memmove`, which nothing else in the static library needs.
#[tactic(auto, unfolding(definitions::specs::Stage::over))]
pub fn copy_listing(listing: &[u8], out: &mut [u8])
    requires { length listing.now ≤ length out.old }
    ensures { out.new ≡ over listing.now out.old }
{
    for k in 0..listing.len() {
        out[k] = listing[k];
    }
}

// The listing as it is, then the mapped fields into their places. Each has been checked before: none is refused here.
#[tactic(auto, using(crate::proofs::Passes::few_records, crate::proofs::Passes::whole_listing))]
fn write_fields<M: Mapping>(mapping: &M, listing: &[u8], count: usize, out: &mut [u8])
    requires good { answer (Ok count) ≡ counted (read_listing listing.now) }
    requires room { length listing.now ≤ length out.old }
    requires checked { answer (Ok tt) ≡ try_records (M.maps mapping.now) 0 0 (records_of listing.now) }
    ensures { coded count out.new ≡ resolve_to (map_records (M.maps mapping.now) 0 0 (records_of listing.now)) out.old }
{
    copy_listing(listing, out);
    let mut offset = 0;
    for number in 0..count {
        let at = listings::FRONT + Record::LENGTH * number;
        let tag = listing[at];
        let row = tables::row_of(tag);
        if (row.first | row.second) != 0 {
            let carrier = Carrier {
                tag,
                start: offset,
                number,
            };
            if let Ok((first, second)) = map_fields(mapping, row, carrier, listing, at) {
                put_u16(out, at + Record::FIRST, first);
                put_u16(out, at + Record::SECOND, second);
            }
        }
        offset += usize::from(tables::size_of(tag));
    }
}

// The listing with its fields mapped, or the refusal, which leaves the buffer as it was: 30, then that of a field, then 20.
#[tactic(auto, using(crate::proofs::Passes::rewrite_30, crate::proofs::Passes::rewrite_labels))]
pub fn rewrite<M: Mapping>(mapping: &M, listing: &[u8], out: &mut [u8]) -> Result<usize, Refusal>
    ensures { resolving result out.new ≡ resolve_to (rewrite (M.maps mapping.now) listing.now (length out.old)) out.old }
{
    let count = listings::check_listing(listing)?;
    check_fields(mapping, listing, count)?;
    if out.len() < listing.len() {
        return Err(Refusal::of(Reason::Room));
    }
    write_fields(mapping, listing, count, out);
    Ok(count)
}
