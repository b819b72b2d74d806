// Where nodes end, and the nodes that stand one behind the other in what holds them.
ghost use Rattle.std.specs.Prelude.{◌≡◌, ◌+◌, ◌≤◌, ◌<◌, ◌^◌, length};
ghost use Rattle.definitions.specs.Bytes.{number};
ghost use Rattle.ir.specs.Places.{end_of};
ghost use Rattle.steps.specs.Walked.{Accepted, list_of, exprs_from};

use instr::numbers::u32_inside;

// Where the node or run at `at` ends.
pub fn end_of(s: &[u8], at: usize) -> usize
    requires { at + 4 ≤ length s.now }
    ensures { result ≡ end_of s.now at }
{
    at + 4 + u32_inside(s, at)
}

// The nodes of a unit up to the end of what holds them, and the depth that is left for them. A place `at` says which one is meant.
#[derive(Clone, Copy)]
pub struct Nodes<'a> {
    pub unit: &'a [u8],
    pub end: usize,
    pub depth: usize,
    ghost inside: { end ≤ length unit.now },
    // True of every usize. A struct that holds this one does not know it, and adds to places before the end.
    ghost fits: { end < 2 ^ 64 },
}

impl Nodes<'_> {
    ghost use Rattle.std.specs.Prelude.{◌-◌};

    // Those in the node at `at`.
    pub fn inner(&self, at: usize) -> Self
        requires { (0 < self.now.depth) × (at + 4 ≤ length self.now.unit.now) × (end_of self.now.unit.now at ≤ length self.now.unit.now) }
        ensures { (result.unit.now ≡ self.now.unit.now) × (result.end ≡ end_of self.now.unit.now at) × (result.depth ≡ self.now.depth - 1) }
    {
        Nodes {
            unit: self.unit,
            end: end_of(self.unit, at),
            depth: self.depth - 1,
        }
    }

    // Those up to `end` alone.
    pub fn up_to(&self, end: usize) -> Self
        requires { end ≤ length self.now.unit.now }
        ensures { (result.unit.now ≡ self.now.unit.now) × (result.end ≡ end) × (result.depth ≡ self.now.depth) }
    {
        Nodes {
            unit: self.unit,
            end,
            depth: self.depth,
        }
    }

    // How many expressions there are from `at` on. The loop moves a place by what stands there and counts no index, so it is no `for`.
    pub fn count(&self, at: usize) -> usize
        requires accepted { Accepted (exprs_from self.now.depth self.now.unit.now self.now.end at) }
        requires at_le_end { at ≤ self.now.end }
        ensures { result ≡ length (list_of (exprs_from self.now.depth self.now.unit.now self.now.end at)) }
    {
        let mut i = at;
        let mut n = 0;
        while i < self.end {
            i = end_of(self.unit, i);
            n += 1;
        }
        n
    }
}
