// What becomes of the records of a walk: they are written, or none is kept. A crate above may do otherwise.
ghost use Rattle.std.specs.Prelude.{◌≡◌, ℕ};
ghost use Rattle.definitions.specs.Instr.{Instr};
ghost use Rattle.instr.specs.Values.{instr_of};
ghost use Rattle.steps.specs.Lent.{put_lent};

use crate::records::put_record;
use instr::records::Record;

/// What is handed the records of a walk.
pub trait Sink {
    // What the sink is after a record: by the offset where its instruction stands, its number, and its fields.
    ghost emitted: { Self → ℕ → ℕ → Instr → Self };

    /// The next record, in listing order: the offset where its instruction begins, in units of virtual size; its number, 0 for the first; and
    /// its fields.
    fn record(&mut self, offset: u32, number: u32, r: Record)
        ensures { self.new ≡ emitted self.old offset number (instr_of r) };
}

/// A listing in a lent buffer: each record is written where it fits.
#[derive(Drop)]
pub struct Listing<'a> {
    pub out: &'a mut [u8],
}

impl Sink for Listing<'_> {
    ghost emitted = { λ s offset number i. record { out = put_lent s.out number i } };

    #[inline(always)]
    fn record(&mut self, _offset: u32, number: u32, r: Record) {
        put_record(self.out, number, r);
    }
}

/// No record is kept: the counters are all that is wanted.
#[derive(Clone, Copy)]
pub struct Nothing;

impl Sink for Nothing {
    ghost emitted = { λ s offset number i. s };

    #[inline(always)]
    fn record(&mut self, _offset: u32, _number: u32, _r: Record) {}
}
