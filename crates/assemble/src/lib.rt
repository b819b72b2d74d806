// Lowering: from the bytes of a unit to its labelled listing and its label table, by the walk of
// `walk`; and what a unit takes.
#![tactic(auto)]

ghost use Rattle.std.specs.Prelude.{◌≡◌, true, length};
ghost use Rattle.definitions.specs.Read.{parse_unit};
ghost use Rattle.definitions.specs.Stage.{lower_into, lower_to, measure};
ghost use Rattle.steps.specs.Running.{puts};
ghost use Rattle.steps.specs.Walked.{Accepted};
ghost use Rattle.assemble.specs.Walk.{Walked};
ghost use Rattle.assemble.specs.Whole.{Lowers, answer, measuring};

use instr::listings;
use instr::records::Record;
use instr::refusals::{Reason, Refusal};
use ir::DEPTH_LIMIT;
use steps::counters::Counters;
use steps::labels::LABELS;
use steps::sinks::{Listing, Nothing, Sink};
use steps::spans::BlockSpan;
use walk::nodes::stmts;

/// The walk over a unit that was read: its totals, or the refusal that lowering it gives.
///
/// The sink is given the record of every instruction, in listing order, with the offset where the
/// instruction begins and its number. The words of `marks` are the room for the label table, which
/// stands at their beginning where it fits. Where it does not, what they hold then is left open; on
/// a refusal so is that and what the sink was given.
pub fn walk<S: Sink>(unit: &[u8], sink: &mut S, marks: &mut [u32]) -> Result<Counters, Refusal>
    requires { Accepted (parse_unit unit.now) }
    ensures { Walked S.emitted unit.now sink.old marks.old result sink.new marks.new }
{
    let mut c = Counters::new();
    let span = BlockSpan {
        break_target: None,
        continue_target: None,
        returns: usize::from(unit[5]),
    };
    stmts(unit, 10, unit.len(), DEPTH_LIMIT, span, &mut c, sink, marks)?;
    Ok(c)
}

// The same into a lent buffer.
fn list_unit(s: &[u8], out: &mut [u8], marks: &mut [u32]) -> Result<Counters, Refusal>
    requires { Accepted (parse_unit s.now) }
    ensures { Walked puts s.now out.old marks.old result out.new marks.new }
{
    let mut sink = Listing { out };
    walk(s, &mut sink, marks)
}

/// What a unit takes: its totals, whatever room there is, or the refusal in reading or in the walk,
/// 1 to 5 or 10 to 15. The walk keeps no record and no mark.
#[tactic(auto, using(crate::proofs::MeasureLaws::read_accepted, crate::proofs::MeasureLaws::read_refused, crate::proofs::MeasureLaws::measures))]
pub fn measure(unit: &[u8]) -> Result<Counters, Refusal>
    ensures { measuring result ≡ measure unit.now }
{
    ir::read_unit(unit)?;
    walk(unit, &mut Nothing, &mut [])
}

// A unit that is lowered into these buffers: the walk and the listing's front.
#[tactic(auto, using(crate::proofs::LowerLaws::fill_done))]
fn fill(s: &[u8], out: &mut [u8], marks: &mut [u32]) -> Result<Counters, Refusal>
    requires { Lowers s.now (length out.old) (length marks.old) }
    ensures { answer result out.new marks.new ≡ lower_to (lower_into s.now (length out.old) (length marks.old)) out.old marks.old }
{
    let c = list_unit(s, out, marks)?;
    listings::write_front(out, c.count);
    Ok(c)
}

// Whether one scan of a unit says that it is lowered into buffers of so many bytes and words. False
// says nothing.
fn fits_in(unit: &[u8], bytes: usize, words: usize) -> bool
    ensures { result ≡ true → Lowers unit.now bytes words }
{
    let Some(room) = bytes.checked_sub(listings::FRONT) else {
        return false;
    };
    scan::fits(unit, room / Record::LENGTH, words.min(LABELS as usize))
}

/// The labelled listing and the label marks of a unit, or the refusal, which leaves both buffers as
/// they were.
///
/// Two forms of the same. The plain one is `measure` and `fill`: the unit is read and walked for
/// its totals, which say whether there is room, and walked again. The fast one stands before it,
/// for units as they mostly are: where one scan says that the unit is lowered into these buffers,
/// neither the reader nor the first walk could refuse it, so the one walk that writes is all that
/// is left. The contract says that both give what the definition gives; where the scan says
/// nothing, the plain form decides.
#[tactic(auto, using(crate::proofs::LowerLaws::lower_refused, crate::proofs::LowerLaws::lower_room, crate::proofs::LowerLaws::lower_table, crate::proofs::LowerLaws::lower_fits))]
pub fn lower(unit: &[u8], out: &mut [u8], marks: &mut [u32]) -> Result<Counters, Refusal>
    ensures { answer result out.new marks.new ≡ lower_to (lower_into unit.now (length out.old) (length marks.old)) out.old marks.old }
{
    if fits_in(unit, out.len(), marks.len()) {
        return fill(unit, out, marks);
    }
    let totals = measure(unit)?;
    if out.len() < listings::FRONT + Record::LENGTH * (totals.count as usize) {
        return Err(Refusal::of(Reason::Room));
    }
    if marks.len() < totals.labels as usize {
        return Err(Refusal::of(Reason::TableRoom));
    }
    fill(unit, out, marks)
}
