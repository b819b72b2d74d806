// What the walk counts, the two actions that change it, and the one that reads it. The counters and a sink or the marks are lent.
ghost use Rattle.std.specs.Prelude.{◌≡◌};
ghost use Rattle.steps.specs.Counting.{emitted_of, labelled_of, unmarked_at, marked_at};
ghost use Rattle.steps.specs.Running.{cut};
ghost use Rattle.steps.specs.Walked.{instr_of};

use crate::labels;
use crate::records::Op;
use crate::sinks::Sink;
use instr::marks::UNMARKED;
use instr::records::Record;
use instr::tables;

/// What has been emitted: its virtual size, how many labels, how many records.
#[derive(Clone, Copy, Debug, PartialEq, Eq)]
pub struct Counters {
    pub offset: u32,
    pub labels: u32,
    pub count: u32,
}

impl Counters {
    // Before the first action.
    pub fn new() -> Self
        ensures { result ≡ record { offset = 0; labels = 0; count = 0 } }
    {
        Counters {
            offset: 0,
            labels: 0,
            count: 0,
        }
    }

    // The next record. Neither sum wraps in the walk of a unit: after every action both are the definition's, far below 2^32 (assemble's
    // unwrapped).
    #[inline(always)]
    pub fn emit<S: Sink>(&mut self, op: Op, sink: &mut S)
        ensures { (self.new ≡ emitted_of self.old (instr_of op)) × (sink.new ≡ S.emitted sink.old self.old.offset self.old.count (cut (instr_of op))) }
    {
        sink.record(self.offset, self.count, Record::from(op));
        self.offset = self.offset.wrapping_add(u32::from(tables::size_of(op.tag)));
        self.count = self.count.wrapping_add(1);
    }

    // One label more, of any counters: `new_label` decides first whether there may be one. Below its limit the sum does not wrap.
    pub fn add_label(&mut self, marks: &mut [u32])
        ensures { (self.new ≡ labelled_of self.old) × (marks.new ≡ unmarked_at self.old marks.old) }
    {
        labels::put_mark(marks, self.labels as usize, UNMARKED);
        self.labels = self.labels.wrapping_add(1);
    }

    // The label lands at the offset.
    pub fn mark_label(&self, label: usize, marks: &mut [u32])
        ensures { marks.new ≡ marked_at self.now label marks.old }
    {
        labels::put_made(marks, label, self.offset, self.labels);
    }
}
