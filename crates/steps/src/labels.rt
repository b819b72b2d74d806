// Labels: made, and marked where the code stands.
ghost use Rattle.std.specs.Prelude.{◌≡◌, slice_set};
ghost use Rattle.definitions.specs.Code.{many, done};
ghost use Rattle.steps.specs.Running.{set_made};
ghost use Rattle.steps.specs.Walked.{Labelled, Made};

use crate::counters::Counters;
use instr::refusals::{Reason, Refusal};

pub const LABELS: u32 = 65536;

// A mark, where it fits.
pub(crate) fn put_mark(marks: &mut [u32], l: usize, v: u32)
    ensures { marks.new ≡ slice_set marks.old l v }
{
    if l < marks.len() {
        marks[l] = v;
    }
}

// The same, of a label that there is.
pub(crate) fn put_made(marks: &mut [u32], l: usize, v: u32, made: u32)
    ensures { marks.new ≡ set_made marks.old l v made }
{
    if l < made as usize {
        put_mark(marks, l, v);
    }
}

impl Counters {
    // The next label, made by the rule of the node at `at`.
    pub fn new_label(&mut self, at: usize, marks: &mut [u32]) -> Result<usize, Refusal>
        ensures { Made at self.old marks.old result self.new marks.new }
    {
        if LABELS <= self.labels {
            return Err(Refusal::at(Reason::Labels, at));
        }
        let label = self.labels as usize;
        self.add_label(marks);
        Ok(label)
    }

    // n of them.
    pub fn new_labels(&mut self, at: usize, n: usize, marks: &mut [u32]) -> Result<(), Refusal>
        ensures { Labelled (many at n done) self.old marks.old result self.new marks.new }
    {
        for _i in 0..n {
            self.new_label(at, marks)?;
        }
        Ok(())
    }
}
