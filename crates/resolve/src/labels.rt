// A label, and the distance that is stored in its place.
ghost use Rattle.std.specs.Prelude.{◌≡◌};
ghost use Rattle.resolve.specs.Mapping.{distances};
ghost use Rattle.resolve.specs.Values.{near};

use crate::mapping::{Carrier, Mapping, Operand};
use instr::marks::{UNMARKED, mark_of};
use instr::refusals::{Reason, Refusal};

// The distance from the start of the carrying instruction to a mark, where it fits 16 bits. The bounds are written out, and a must-fail edit
// moves each by one: a conversion to 16 bits would hide them. Which of the two is less is asked first, so
// that no difference wraps.
#[tactic(auto, using(crate::proofs::LabelLaws::ahead_far, crate::proofs::LabelLaws::ahead_near, crate::proofs::LabelLaws::back_far, crate::proofs::LabelLaws::back_near))]
fn distance(mark: usize, start: usize) -> Option<u16>
    ensures { result ≡ near mark start }
{
    if start <= mark {
        let ahead = mark - start;
        if 32767 < ahead {
            return None;
        }
        return Some(ahead as u16);
    }
    let back = start - mark;
    if 32768 < back {
        return None;
    }
    Some((65536 - back) as u16)
}

// Distances in place of labels, by the mark of each label.
#[derive(Clone, Copy, Debug)]
pub struct Distances<'a> {
    pub marks: &'a [u32],
}

impl Mapping for Distances<'_> {
    ghost maps = { λ d. distances d.marks.now };

    #[tactic(auto, using(crate::proofs::LabelLaws::label_unmarked, crate::proofs::LabelLaws::label_marked), unfolding(definitions::specs::Code::unmarked))]
    fn map(&self, carrier: Carrier, operand: Operand, label: u16) -> Result<u16, Refusal> {
        let mark = mark_of(self.marks, label);
        if mark == UNMARKED {
            return Err(carrier.refusal(Reason::Unmarked, operand));
        }
        distance(mark as usize, carrier.start).ok_or(carrier.refusal(Reason::Distance, operand))
    }
}
