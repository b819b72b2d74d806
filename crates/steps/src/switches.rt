// What a switch decides, and its groups of cases.
ghost use Rattle.std.specs.Prelude.{◌≡◌, cond, not, ◌&&◌, ◌||◌, ◌==◌, nat_le, nat_lt};
ghost use Rattle.std.proofs.Math.Option.{none, some};
ghost use Rattle.steps.specs.Walked.{target_of, Opened, MarksIf, same_as};

use crate::counters::Counters;
use instr::refusals::Refusal;

// Whether a case ends its group: its block, from `first` to `stop`, has a statement, or it is the last case.
pub fn ends_group(first: usize, stop: usize, end: usize) -> bool
    ensures { result ≡ (nat_lt first stop || nat_le end stop) }
{
    first < stop || end <= stop
}

impl Counters {
    // The body label of the group that is open, or the next, which is made.
    pub fn body_label(
        &mut self,
        group: Option<usize>,
        at: usize,
        marks: &mut [u32],
    ) -> Result<usize, Refusal>
        ensures { Opened group at self.old marks.old result self.new marks.new }
    {
        match group {
            Some(label) => Ok(label),
            None => self.new_label(at, marks),
        }
    }

    // `here` is a mark: the definitions take any number, and so does each contract.
    pub fn mark_if(&self, here: usize, label: usize, marks: &mut [u32])
        ensures { MarksIf here label self.now marks.old marks.new }
    {
        if here != 0 {
            self.mark_label(label, marks);
        }
    }
}

pub fn group_after(ends: bool, body: usize) -> Option<usize>
    ensures { target_of result ≡ cond «ends» none (some body) }
{
    (!ends).then_some(body)
}

// `there` is a mark, as above.
pub fn is_mid(there: usize, index: usize, n: usize) -> bool
    ensures { result ≡ (not (there == 0) && nat_lt index n) }
{
    there != 0 && index < n
}

// A mark, as `mark_if` and the default's code take one: the definitions ask there whether a number is 0.
pub fn is_same(k: usize, index: usize) -> usize
    ensures { result ≡ same_as k index }
{
    usize::from(k == index)
}
