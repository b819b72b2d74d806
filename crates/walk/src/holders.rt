// What holds a node, and what that node holds in turn.
use steps::places::Nodes;
use steps::spans::BlockSpan;

// A node or a run: the nodes in it, and where their break and continue go. The counters, the sink and the marks are no fields: each method
// would have to say of each that it is the same one. Methods borrow it: by value, the stage took a tenth longer on flat blocks.
// That a node was read, or that it lies before the end, is said of a place in it by each method: a struct of a holder and a place would be
// built for every node, with the proof there, and its methods would say no less.
#[derive(Clone, Copy)]
pub(crate) struct Holder<'a> {
    pub(crate) nodes: Nodes<'a>,
    pub(crate) span: BlockSpan,
}

impl Holder<'_> {
    ghost use Rattle.std.specs.Prelude.{◌≡◌, ◌+◌, ◌-◌, ◌<◌, ◌≤◌, length};
    ghost use Rattle.definitions.specs.Lower.{in_loop, in_switch};
    ghost use Rattle.ir.specs.Places.{end_of};
    ghost use Rattle.steps.specs.Walked.{span_of};

    // The node at `at` in this one.
    pub(crate) fn inner(&self, at: usize) -> Self
        requires { (0 < self.now.nodes.depth) × (at + 4 ≤ length self.now.nodes.unit.now) × (end_of self.now.nodes.unit.now at ≤ length self.now.nodes.unit.now) }
        ensures node { (result.nodes.unit.now ≡ self.now.nodes.unit.now) × (result.nodes.end ≡ end_of self.now.nodes.unit.now at) × (result.nodes.depth ≡ self.now.nodes.depth - 1) }
        ensures scope { result.span ≡ self.now.span }
    {
        Holder {
            nodes: self.nodes.inner(at),
            span: self.span,
        }
    }

    // This one up to `end` alone.
    pub(crate) fn up_to(&self, end: usize) -> Self
        requires { end ≤ length self.now.nodes.unit.now }
        ensures { (result.nodes.unit.now ≡ self.now.nodes.unit.now) × (result.nodes.end ≡ end) × (result.nodes.depth ≡ self.now.nodes.depth) × (result.span ≡ self.now.span) }
    {
        Holder {
            nodes: self.nodes.up_to(end),
            span: self.span,
        }
    }

    // A loop's body: where its break and continue go.
    pub(crate) fn in_loop(&self, start: usize, finish: usize) -> Self
        ensures { (result.nodes.unit.now ≡ self.now.nodes.unit.now) × (result.nodes.end ≡ self.now.nodes.end) × (result.nodes.depth ≡ self.now.nodes.depth) × (span_of result.span ≡ in_loop start finish (span_of self.now.span)) }
    {
        Holder {
            nodes: self.nodes,
            span: self.span.in_loop(start, finish),
        }
    }

    // The cases of a switch: where their break goes.
    pub(crate) fn in_switch(&self, finish: usize) -> Self
        ensures { (result.nodes.unit.now ≡ self.now.nodes.unit.now) × (result.nodes.end ≡ self.now.nodes.end) × (result.nodes.depth ≡ self.now.nodes.depth) × (span_of result.span ≡ in_switch finish (span_of self.now.span)) }
    {
        Holder {
            nodes: self.nodes,
            span: self.span.in_switch(finish),
        }
    }
}
