// Where break and continue go.
ghost use Rattle.std.specs.Prelude.{◌≡◌};
ghost use Rattle.definitions.specs.Lower.{in_loop, in_switch};
ghost use Rattle.steps.specs.Walked.{span_of};

// Where break and continue go, and the unit's return byte, a number as in the definitions.
#[derive(Clone, Copy, Debug, PartialEq, Eq)]
pub struct BlockSpan {
    pub break_target: Option<usize>,
    pub continue_target: Option<usize>,
    pub returns: usize,
}

#[tactic(auto, unfolding(crate::specs::Walked::span_of, crate::specs::Walked::target_of))]
impl BlockSpan {
    pub fn in_loop(self, start: usize, exit: usize) -> Self
        ensures { span_of result ≡ in_loop start exit (span_of self) }
    {
        BlockSpan {
            break_target: Some(exit),
            continue_target: Some(start),
            ..self
        }
    }

    pub fn in_switch(self, finish: usize) -> Self
        ensures { span_of result ≡ in_switch finish (span_of self) }
    {
        BlockSpan {
            break_target: Some(finish),
            ..self
        }
    }
}
