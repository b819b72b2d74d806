// A node or a run in a unit, its fields, and what is left of records and labels. None says only that this pass does not answer.
ghost use Rattle.std.specs.Prelude.{◌≤◌, length};

use instr::numbers::u32_inside;
use ir::expr::{CONST_BOOL, const_width};

// What is left of records and labels.
#[derive(Clone, Copy, Debug, PartialEq, Eq)]
pub(crate) struct Left {
    pub(crate) records: usize,
    pub(crate) labels: usize,
}

impl Left {
    ghost use Rattle.std.specs.Prelude.{IfSome};
    ghost use Rattle.scan.specs.Scanned.{Paid};

    // Takes k records, where so many are left.
    pub(crate) fn pay_records(&mut self, k: usize) -> Option<()>
        ensures { IfSome result (λ _. Paid self.old self.new k 0) }
    {
        self.records = self.records.checked_sub(k)?;
        Some(())
    }

    // The same of labels.
    pub(crate) fn pay_labels(&mut self, k: usize) -> Option<()>
        ensures { IfSome result (λ _. Paid self.old self.new 0 k) }
    {
        self.labels = self.labels.checked_sub(k)?;
        Some(())
    }

    // Both.
    pub(crate) fn pay(&mut self, records: usize, labels: usize) -> Option<()>
        ensures { IfSome result (λ _. Paid self.old self.new records labels) }
    {
        self.pay_records(records)?;
        self.pay_labels(labels)
    }
}

// What holds nodes, runs and fields: a node, a run or the whole unit. What it holds must fit before its end. The methods borrow it: with
// a copy for every call the stage took up to a third longer on small units. That a place lies before the end is said of it by each method:
// a struct of a holder and a place would be built for every field, with the proof there.
#[derive(Clone, Copy)]
pub(crate) struct Holder<'a> {
    pub(crate) unit: &'a [u8],
    pub(crate) end: usize,
    ghost inside: { end ≤ length unit.now },
}

impl Holder<'_> {
    ghost use Rattle.std.specs.Prelude.{◌≡◌, ◌+◌, ◌<◌, get_or, IfSome};
    ghost use Rattle.definitions.specs.Answer.{ok};
    ghost use Rattle.definitions.specs.Read.{span, head};
    ghost use Rattle.scan.specs.Scanned.{ConstAt, all_marks};

    // After w bytes whose values may be any.
    pub(crate) fn skip(&self, at: usize, w: usize) -> Option<usize>
        requires { at ≤ self.now.end }
        ensures { IfSome result (λ r. (r ≡ at + w) × (r ≤ self.now.end)) }
    {
        if self.end - at < w {
            return None;
        }
        Some(at + w)
    }

    // The end, where nothing is left before it.
    pub(crate) fn close(&self, at: usize) -> Option<usize>
        ensures { IfSome result (λ r. (r ≡ at) × (at ≡ self.now.end)) }
    {
        if at == self.end {
            return Some(at);
        }
        None
    }

    // Where the node or run at `at` ends: the end and no holder, since a call compares it. A holder of it is a literal of two fields.
    pub(crate) fn span(&self, at: usize) -> Option<usize>
        requires { at ≤ self.now.end }
        ensures { IfSome result (λ r. (span self.now.unit.now self.now.end at ≡ ok r (at + 4)) × (at + 4 ≤ r) × (r ≤ self.now.end)) }
    {
        let first = self.skip(at, 4)?;
        self.skip(first, u32_inside(self.unit, at))
    }

    // The same of a node, which has a kind. Nothing is found where no depth is left.
    pub(crate) fn node(&self, at: usize, depth: usize) -> Option<usize>
        requires { at ≤ self.now.end }
        ensures { IfSome result (λ r. (head self.now.unit.now self.now.end at ≡ ok (get_or self.now.unit.now (at + 4) 0, r) (at + 5)) × (0 < depth) × (at + 5 ≤ r) × (r ≤ self.now.end)) }
    {
        let end = self.span(at)?;
        if depth == 0 || end < at + 5 {
            return None;
        }
        Some(end)
    }

    // After w bytes of fields, of which the one at k is below `bound`.
    pub(crate) fn fields(&self, at: usize, w: usize, k: usize, bound: u8) -> Option<usize>
        requires { (at ≤ self.now.end) × (k < w) }
        ensures { IfSome result (λ r. (r ≡ at + w) × (r ≤ self.now.end) × (get_or self.now.unit.now (at + k) 0 < bound)) }
    {
        let next = self.skip(at, w)?;
        if self.unit[at + k] < bound {
            return Some(next);
        }
        None
    }

    // After a constant: its byte, and a mark for Bool, else a value of its width.
    #[tactic(auto, using(crate::proofs::FieldLaws::const_bool, crate::proofs::FieldLaws::const_wide))]
    pub(crate) fn constant(&self, at: usize) -> Option<usize>
        requires { at ≤ self.now.end }
        ensures { IfSome result (λ r. ConstAt self.now.unit.now self.now.end at r) }
    {
        let value = self.fields(at, 1, 0, 16)?;
        let byte = usize::from(self.unit[at]);
        if byte == CONST_BOOL {
            return self.fields(value, 1, 0, 2);
        }
        self.skip(value, const_width(byte))
    }

    // After n marks.
    #[tactic(auto, using(crate::proofs::FieldLaws::marks_more))]
    pub(crate) fn marks(&self, at: usize, n: usize) -> Option<usize>
        requires { at ≤ self.now.end }
        ensures { IfSome result (λ r. (r ≡ at + n) × (r ≤ self.now.end) × all_marks self.now.unit.now at n) }
    {
        let next = self.skip(at, n)?;
        for k in 0..n {
            if 1 < self.unit[at + k] {
                return None;
            }
        }
        Some(next)
    }
}
