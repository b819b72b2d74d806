// What looks at a unit: it is shown each record with its distances, by a walk that writes nothing.
ghost use Rattle.std.specs.Prelude.{◌≡◌, ◌≤◌, ℕ};
ghost use Rattle.definitions.specs.Answer.{made};
ghost use Rattle.definitions.specs.Code.{State};
ghost use Rattle.definitions.specs.Instr.{Instr};
ghost use Rattle.definitions.specs.Read.{parse_unit};
ghost use Rattle.definitions.specs.Stage.{labelled, measure};
ghost use Rattle.instr.specs.Values.{instr_of};
ghost use Rattle.steps.specs.Walked.{Accepted};
ghost use Rattle.assemble.specs.Whole.{measuring};
ghost use Rattle.foresee.specs.declared.distances.Distances.{Distances};
ghost use Rattle.foresee.specs.Looks.{look_lent, seen_all, seen_of, seen_within};

use crate::distances::Distances;
use assemble::walk;
use instr::records::Record;
use instr::refusals::Refusal;
use steps::counters::Counters;
use steps::labels::LABELS;
use steps::sinks::{Nothing, Sink};

/// What looks at the records of a unit, and remembers what it will of them.
pub trait Look {
    // What it is after a record: by the offset where its instruction begins, its number, its fields
    // and its distances.
    ghost seen: { Self → ℕ → ℕ → Instr → Distances → Self };

    /// The next record, in listing order: the offset where its instruction begins, its number,
    /// which is 0 for the first, its fields, and how far from that offset the labels that they
    /// carry land.
    fn record(&mut self, offset: u32, number: u32, fields: Record, distances: Distances)
        ensures { self.new ≡ seen self.old offset number (instr_of fields) distances };
}

// A sink that shows each record, with its distances by a label table that is finished.
#[derive(Drop)]
struct Looking<'a, L> {
    marks: &'a [u32],
    look: &'a mut L,
}

impl<L: Look> Sink for Looking<'_, L> {
    ghost emitted = { λ s offset number i.
        record { marks = s.marks; look = look_lent L.seen s.marks.now s.look offset number i } };

    fn record(&mut self, offset: u32, number: u32, r: Record) {
        let distances = Distances::of(self.marks, offset, r);
        self.look.record(offset, number, r, distances);
    }
}

// Every record of a unit that was read, by this label table. Where the unit is refused, what the
// look is then is left open.
fn look_by<L: Look>(unit: &[u8], marks: &[u32], look: &mut L) -> Result<Counters, Refusal>
    requires { Accepted (parse_unit unit.now) }
    ensures answers { measuring result ≡ measure unit.now }
    ensures looks { (t : State) → labelled unit.now ≡ made t →
        look.new ≡ seen_all L.seen marks.now 0 0 t.instrs look.old }
{
    let mut sink = Looking { marks, look };
    walk(unit, &mut sink, &mut [])
}

// The same by the unit's own label table, which a walk before makes here, in so many words. Where
// the unit is refused or has more labels, the look is as it was. Never inlined: the table is in its
// frame, and a unit of few labels is not to pay for a large one.
#[inline(never)]
fn look_in<const WORDS: usize, L: Look>(unit: &[u8], look: &mut L) -> Result<Counters, Refusal>
    requires was_read { Accepted (parse_unit unit.now) }
    requires small { WORDS ≤ 65536 }
    ensures answers { measuring result ≡ measure unit.now }
    ensures looks { look.new ≡ seen_within WORDS L.seen (labelled unit.now) look.old }
{
    let mut marks = [0u32; WORDS];
    let totals = walk(unit, &mut Nothing, &mut marks)?;
    let labels = totals.labels as usize;
    if labels <= WORDS {
        return look_by(unit, &marks[..labels], look);
    }
    Ok(totals)
}

// So many words are lent to a label table: enough for most units, for large ones, and for any.
const FEW: usize = 256;

const MANY: usize = 4096;

const MOST: usize = LABELS as usize;

/// Shows a look every record of a unit, in listing order, each with its distances.
///
/// The answer is the unit's totals or its refusal, as `assemble::measure` gives them. Of a unit
/// that is refused, in reading or in the walk, nothing is shown: the look is as it was.
///
/// The unit is walked for its label table, and again to look; where it has more than 256 labels,
/// once before that, which finds how many. The table stands on the stack: 1 KB for at most 256
/// labels, 16 KB for at most 4,096, and 256 KB for more.
pub fn look_over<L: Look>(unit: &[u8], look: &mut L) -> Result<Counters, Refusal>
    ensures answers { measuring result ≡ measure unit.now }
    ensures looks { look.new ≡ seen_of L.seen (labelled unit.now) look.old }
{
    ir::read_unit(unit)?;
    let totals = look_in::<FEW, L>(unit, look)?;
    let labels = totals.labels as usize;
    if labels <= FEW {
        return Ok(totals);
    }
    if labels <= MANY {
        return look_in::<MANY, L>(unit, look);
    }
    look_in::<MOST, L>(unit, look)
}
