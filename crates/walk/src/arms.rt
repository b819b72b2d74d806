// The arms of Branches and Switch.
use super::holders::Holder;
use steps::places::end_of;

impl Holder<'_> {
    ghost use Rattle.std.specs.Prelude.{◌≡◌, ◌≤◌, length};
    ghost use Rattle.steps.specs.Walked.{Accepted, list_of, arms_from};

    // How many there are from `at` on.
    pub(crate) fn count_arms(&self, at: usize) -> usize
        requires accepted { Accepted (arms_from self.now.nodes.depth self.now.nodes.unit.now self.now.nodes.end at) }
        requires at_le_end { at ≤ self.now.nodes.end }
        ensures { result ≡ length (list_of (arms_from self.now.nodes.depth self.now.nodes.unit.now self.now.nodes.end at)) }
    {
        let mut i = at;
        let mut n = 0;
        while i < self.nodes.end {
            let second = end_of(self.nodes.unit, i);
            i = end_of(self.nodes.unit, second);
            n += 1;
        }
        n
    }
}
