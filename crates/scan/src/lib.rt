// One pass over the bytes of a unit, for units as they mostly are: it reads, no rule refuses it, and the room suffices. The pass counts
// down what is left of records and labels, and carries no refusal. Where it does not answer yes, it says nothing, and the plain reader
// and the walk into empty buffers decide.
#![tactic(auto)]

ghost use Rattle.std.specs.Prelude.{◌≡◌, true};
ghost use Rattle.scan.specs.Scanned.{Fits};

mod exprs;
mod fields;
mod stmts;

use fields::{Holder, Left};
use ir::DEPTH_LIMIT;
use stmts::{Around, Inside};

// Whether a unit is read, is refused nowhere, and takes no more than so many records and labels. False says nothing.
pub fn fits(unit: &[u8], records: usize, labels: usize) -> bool
    ensures { result ≡ true → Fits unit.now records labels }
{
    if !ir::front_good(unit) {
        return false;
    }
    let whole = Holder {
        unit,
        end: unit.len(),
    };
    let around = Around {
        returns: usize::from(unit[5]),
        inside: Inside::Nothing,
    };
    let mut left = Left { records, labels };
    whole.block(6, DEPTH_LIMIT, around, &mut left) == Some(whole.end)
}
