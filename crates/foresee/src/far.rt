// Which distance of a unit is the first that sixteen bits cannot hold.
ghost use Rattle.std.specs.Prelude.{◌≡◌};
ghost use Rattle.definitions.specs.Answer.{made, onward};
ghost use Rattle.definitions.specs.Stage.{labelled};
ghost use Rattle.instr.specs.Refusals.{answer};
ghost use Rattle.foresee.specs.Far.{is_far, far_of, first_found, first_too_far};

use crate::distances::Distances;
use crate::looks::{Look, look_over};
use instr::records::Record;
use instr::refusals::Refusal;

// How far back and ahead a distance of sixteen bits reaches.
const FARTHEST_BACK: i64 = -32768;

const FARTHEST_AHEAD: i64 = 32767;

/// Where a distance outside -32,768 to 32,767 is: the number of its record, and which of the
/// record's two operands has it, 0 for the first, 1 for the second.
#[derive(Clone, Copy, Debug, PartialEq, Eq)]
pub struct Far {
    pub number: u32,
    pub operand: u32,
}

// Whether a distance is outside sixteen bits. A field that carries no label has none, which is not.
fn is_far(distance: Option<i64>) -> bool
    ensures { result ≡ is_far distance }
{
    match distance {
        Some(units) => units < FARTHEST_BACK || FARTHEST_AHEAD < units,
        None => false,
    }
}

// The first distance of a record that is too far.
fn far_of(number: u32, distances: Distances) -> Option<Far>
    ensures { result ≡ far_of number distances }
{
    if is_far(distances.first) {
        return Some(Far { number, operand: 0 });
    }
    if is_far(distances.second) {
        return Some(Far { number, operand: 1 });
    }
    None
}

// A look that remembers the first distance that is too far.
#[derive(Clone, Copy, Debug, PartialEq, Eq)]
struct FirstFar {
    found: Option<Far>,
}

impl Look for FirstFar {
    ghost seen = { λ s offset number i distances.
        record { found = first_found s.found number distances } };

    fn record(&mut self, _offset: u32, number: u32, _record: Record, distances: Distances) {
        if self.found.is_none() {
            self.found = far_of(number, distances);
        }
    }
}

/// The first distance for which resolving refuses a unit, by 32, found before one byte of a listing
/// is written; `None` where it gives every distance. A unit that is refused in reading or in the
/// walk gives that refusal.
///
/// It takes what `look_over` takes: two or three walks, and the stack for the label table.
pub fn foresee(unit: &[u8]) -> Result<Option<Far>, Refusal>
    ensures { answer result ≡ onward (labelled unit.now) (λ t. made (first_too_far t)) }
{
    let mut first = FirstFar { found: None };
    look_over(unit, &mut first)?;
    Ok(first.found)
}
