// Records: what each step emits, and how one is written where it fits.
ghost use Rattle.std.specs.Prelude.{◌≡◌, ◌%◌, ◌^◌, ℕ, cond};
ghost use Rattle.definitions.specs.Instr.{plain};
ghost use Rattle.definitions.specs.Code.{Action, act};
ghost use Rattle.definitions.specs.Lower.{jump, jumps, emit_switch, invoke};
ghost use Rattle.instr.specs.Tags.{byte_of};
ghost use Rattle.instr.specs.Values as Values;
ghost use Rattle.steps.specs.Running.{put};
ghost use Rattle.steps.specs.Walked.{Cuts, Emitted};

use crate::counters::Counters;
use crate::sinks::Sink;
use instr::records::Record;
use instr::tag::Tag;
use instr::{listings, records, tables};

// A record before its fields are cut to their widths.
#[derive(Clone, Copy, Debug, PartialEq, Eq)]
pub struct Op {
    pub tag: u8,
    pub small: usize,
    pub first: usize,
    pub second: usize,
    pub line: u16,
    pub flags: u16,
    pub value: u64,
    pub node: usize,
}

/// What stands for a record's tag: a `Tag`, or any byte.
pub trait TagByte: Copy {
    // The byte of the tag.
    ghost byte: { Self → ℕ };

    /// The byte of the tag.
    fn tag_byte(self) -> u8
        ensures { result ≡ byte self };
}

impl TagByte for Tag {
    ghost byte = { byte_of };

    #[inline(always)]
    fn tag_byte(self) -> u8 {
        self.byte()
    }
}

impl TagByte for u8 {
    ghost byte = { λ b. b };

    #[inline(always)]
    fn tag_byte(self) -> u8 {
        self
    }
}

impl Op {
    // With no field but its tag, of the node whose rule emits it.
    #[inline(always)]
    pub fn new<T: TagByte>(tag: T, node: usize) -> Self
        ensures { result ≡ record { tag = T.byte tag; small = 0; first = 0; second = 0; line = 0; flags = 0; value = 0; node = node } }
    {
        Op {
            tag: tag.tag_byte(),
            small: 0,
            first: 0,
            second: 0,
            line: 0,
            flags: 0,
            value: 0,
            node,
        }
    }
}

// Each field is cut to its width. No bit is lost: what the walk of a unit emits is within the widths (landing's emitted_records).
impl From<Op> for Record {
    ghost from_gives = { Cuts };

    fn from(op: Op) -> Self {
        Record {
            tag: op.tag,
            small: (op.small % 256) as u8,
            first: (op.first % 65536) as u16,
            second: (op.second % 65536) as u16,
            line: op.line,
            flags: op.flags,
            value: op.value,
            node: (op.node % 4294967296) as u32,
        }
    }
}

// Record k, where it fits.
pub(crate) fn put_record(out: &mut [u8], k: u32, r: Record)
    ensures { out.new ≡ put out.old k (Values.instr_of r) }
{
    let from = listings::FRONT + Record::LENGTH * (k as usize);
    if from <= out.len() {
        records::write_record(&mut out[from..], r);
    }
}

// A field, where the tag uses it.
fn masked(used: bool, v: usize) -> usize
    ensures { result ≡ cond «used» v 0 }
{
    if used { v } else { 0 }
}

// Each takes the place of the node whose rule emits it.
impl Counters {
    // A record with no label.
    #[inline(always)]
    pub fn plain<T: TagByte, S: Sink>(
        &mut self,
        at: usize,
        tag: T,
        small: usize,
        value: usize,
        sink: &mut S,
    )
        ensures { Emitted S.emitted (act (Action.emit (plain at (T.byte tag) small value))) self.old sink.old self.new sink.new }
    {
        let row = tables::row_of(tag.tag_byte());
        let op = Op {
            small: masked(row.small != 0, small),
            value: masked(row.value != 0, value) as u64,
            ..Op::new(tag, at)
        };
        self.emit(op, sink);
    }

    // With one label.
    #[inline(always)]
    pub fn jump<T: TagByte, S: Sink>(&mut self, at: usize, tag: T, to: usize, sink: &mut S)
        ensures { Emitted S.emitted (jump at (T.byte tag) to) self.old sink.old self.new sink.new }
    {
        let op = Op {
            first: to,
            ..Op::new(tag, at)
        };
        self.emit(op, sink);
    }

    // Conditional and SwitchLabel.
    pub fn jumps<T: TagByte, S: Sink>(
        &mut self,
        at: usize,
        tag: T,
        first: usize,
        second: usize,
        sink: &mut S,
    )
        ensures { Emitted S.emitted (jumps at (T.byte tag) first second) self.old sink.old self.new sink.new }
    {
        let op = Op {
            first,
            second,
            ..Op::new(tag, at)
        };
        self.emit(op, sink);
    }

    pub fn switch<S: Sink>(&mut self, at: usize, typ: usize, first: usize, sink: &mut S)
        ensures { Emitted S.emitted (emit_switch at typ first) self.old sink.old self.new sink.new }
    {
        let op = Op {
            first,
            value: typ as u64,
            ..Op::new(Tag::Switch, at)
        };
        self.emit(op, sink);
    }

    pub fn invoke<T: TagByte, S: Sink>(
        &mut self,
        at: usize,
        tag: T,
        exit: usize,
        line: u16,
        flags: u16,
        value: usize,
        sink: &mut S,
    )
        ensures { Emitted S.emitted (invoke at (T.byte tag) exit line flags value) self.old sink.old self.new sink.new }
    {
        let op = Op {
            first: exit,
            line,
            flags,
            value: value as u64,
            ..Op::new(tag, at)
        };
        self.emit(op, sink);
    }
}
