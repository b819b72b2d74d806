// A listing that passed its check, and the lines of its records.
ghost use Rattle.std.specs.Prelude.{◌+◌, ◌*◌, ◌≤◌, ◌<◌, ◌≡◌};
ghost use Rattle.definitions.specs.Instr.{record_length, record_at};
ghost use Rattle.definitions.specs.Listing.{front_length, record_limit};
ghost use Rattle.definitions.specs.Stage.{line_of, lines_from, total_size};
ghost use Rattle.definitions.specs.Text.{line_text, lines_text};
ghost use Rattle.instr.specs.Values.{instr_of};
ghost use Rattle.print.specs.Values.{sign_of};
ghost use Rattle.print.specs.Writing.{far, longest, Wrote};

use crate::Form;
use crate::page::Page;
use instr::records::Record;
use instr::{listings, numbers, records, tables};

// A listing's bytes, and how many records it has. Instr and resolve hand a count on once and take no struct for it.
#[derive(Clone, Copy)]
pub(crate) struct Listing<'a> {
    pub(crate) bytes: &'a [u8],
    pub(crate) count: usize,
    ghost few: { count ≤ record_limit },
}

impl Listing<'_> {
    ghost use Rattle.print.specs.Listings.{records_in};

    fn record(&self, n: usize) -> Record
        requires { n < self.now.count }
        ensures { instr_of result ≡ record_at self.now.bytes.now (front_length + record_length * n) }
    {
        records::read_record(self.bytes, listings::FRONT + Record::LENGTH * n)
    }

    // Its tag alone: all that the total takes of it.
    #[tactic(auto, unfolding(definitions::specs::Instr::record_at, definitions::specs::Bytes::number))]
    fn tag(&self, n: usize) -> u8
        requires { n < self.now.count }
        ensures { result ≡ (record_at self.now.bytes.now (front_length + record_length * n)).tag }
    {
        numbers::byte_at(
            self.bytes,
            listings::FRONT + Record::LENGTH * n + Record::TAG,
        )
    }

    // The total size of its records: what the first line says, before the lines are written.
    #[tactic(auto, using(crate::proofs::LineLaws::no_total, crate::proofs::LineLaws::tag_step))]
    pub(crate) fn total(&self) -> usize
        ensures { result ≡ total_size (records_in self.now) }
    {
        let mut sum: usize = 0;
        for n in 0..self.count {
            sum += usize::from(tables::size_of(self.tag(n)));
        }
        sum
    }

    // The lines of its records, each with its start.
    pub(crate) fn lines(&self, form: Form, page: &mut Page)
        requires { page.old.at + longest * self.now.count ≤ far }
        ensures { Wrote (lines_text (lines_from (sign_of form) 0 (records_in self.now))) page.old page.new }
    {
        let mut start: usize = 0;
        for n in 0..self.count {
            let r = self.record(n);
            line(start, r, form, page);
            start += usize::from(tables::size_of(r.tag));
        }
    }
}

// The line of a record that starts at this offset.
fn line(start: usize, r: Record, form: Form, page: &mut Page)
    requires { page.old.at + longest ≤ far }
    ensures text { Wrote (line_text (line_of (sign_of form) start (instr_of r))) page.old page.new }
    ensures short { page.new.at ≤ page.old.at + longest }
{
    page.decimal(start as u64, b' ');
    page.hexadecimal(2, u64::from(r.tag), b' ');
    page.decimal(u64::from(r.small), b' ');
    page.carried(form, r.first, b' ');
    page.carried(form, r.second, b' ');
    page.decimal(u64::from(r.line), b' ');
    page.decimal(u64::from(r.flags), b' ');
    page.hexadecimal(16, r.value, b'\n');
}
