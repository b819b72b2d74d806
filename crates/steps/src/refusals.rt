// Refusals of the walk.
ghost use Rattle.steps.specs.Walked.{checked_as, JumpsTo};
ghost use Rattle.std.specs.Prelude.{◌≡◌};

use crate::counters::Counters;
use crate::sinks::Sink;
use instr::tag::Tag;

/// Nothing where a check is passed, else the refusal, whatever names it.
#[tactic(auto, unfolding(crate::specs::Walked::checked_as))]
pub fn require<E: Copy>(passed: bool, refusal: E) -> Result<(), E>
    ensures { result ≡ checked_as «passed» refusal }
{
    if passed { Ok(()) } else { Err(refusal) }
}

impl Counters {
    /// A jump to the target of the node at `at`; where there is none, the refusal, whatever names
    /// it, and no record.
    #[tactic(auto, unfolding(crate::specs::Walked::JumpsTo))]
    pub fn jump_to<E: Copy, S: Sink>(
        &mut self,
        at: usize,
        target: Option<usize>,
        refusal: E,
        sink: &mut S,
    ) -> Result<(), E>
        ensures { JumpsTo S.emitted at target refusal self.old sink.old result self.new sink.new }
    {
        let Some(label) = target else {
            return Err(refusal);
        };
        self.jump(at, Tag::Jump, label, sink);
        Ok(())
    }
}
