// Strips a unit: what may differ in two units that lower alike, names, lines and constants, is set to the least of its class.
#![tactic(auto)]

ghost use Rattle.std.specs.Prelude.{◌≡◌, length};
ghost use Rattle.definitions.specs.Strip.{strip, strip_into, strip_to};
ghost use Rattle.strip.specs.Values.{stripping};

mod fields;
mod kinds;
mod nodes;

use instr::refusals::{Reason, Refusal};
use ir::Item;
use nodes::strip_unit;

// What a node has after its kind: bytes that may differ, bytes that may not, a byte below a bound, a constant, a callee's parameters, an
// expression, a run, a call's arguments, and what is there if the mark that was passed last is 1.
#[derive(Clone, Copy)]
enum Part {
    Free(usize),
    Kept(usize),
    Small(usize),
    Constant,
    Params,
    Value,
    Run(Item),
    Arguments,
    ValueIf,
    BlockIf,
}

// The unit, into a buffer of its length. Byte by byte: `copy_from_slice` would call `memmove`, which
// nothing else in the static library needs.
fn copy_unit(unit: &[u8], out: &mut [u8])
    requires { length out.old ≡ length unit.now }
    ensures { out.new ≡ unit.now }
{
    for k in 0..unit.len() {
        out[k] = unit[k];
    }
}

// The unit stripped, into a buffer of its length. A unit whose front is not good stays as it is.
#[tactic(auto, using(crate::proofs::UnitLaws::no_unit))]
fn strip_whole(unit: &[u8], out: &mut [u8])
    requires { length out.old ≡ length unit.now }
    ensures { out.new ≡ strip unit.now }
{
    copy_unit(unit, out);
    if ir::front_good(unit) {
        strip_unit(unit, out);
    }
}

// The unit without what may differ, and how many bytes that is; where the buffer is too short, a refusal, which leaves it as it was.
#[tactic(auto, using(crate::proofs::UnitLaws::answer_20, crate::proofs::UnitLaws::answer), unfolding(crate::specs::Values::stripping))]
pub fn strip(unit: &[u8], out: &mut [u8]) -> Result<usize, Refusal>
    ensures { stripping result out.new ≡ strip_to (strip_into unit.now (length out.old)) out.old }
{
    let n = unit.len();
    if out.len() < n {
        return Err(Refusal::of(Reason::Room));
    }
    strip_whole(unit, &mut out[0..n]);
    Ok(n)
}
