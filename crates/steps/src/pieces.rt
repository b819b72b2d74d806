// Statements and expressions that hold no node.
ghost use Rattle.std.specs.Prelude.{◌≡◌, ◌+◌, ◌<◌, ◌≤◌, length, if◌then◌else◌, nat_lt, slice_index};
ghost use Rattle.definitions.specs.Bytes.{number};
ghost use Rattle.definitions.specs.Tag.{const_widths};
ghost use Rattle.definitions.specs.Code.{emits};
ghost use Rattle.definitions.specs.Lower.{primitive_default, default_instrs, lower_return_nothing};
ghost use Rattle.steps.specs.Walked.{Emitted, element_code, const_code};

use crate::counters::Counters;
use crate::sinks::Sink;
use crate::tags::const_tag;
use instr::numbers::{byte_at, u16_at, u32_at, u32_inside, u64_at};
use instr::tables;
use instr::tag::Tag;
use ir::expr::const_width;

// The value of a constant, by its byte.
fn value_at(s: &[u8], at: usize, byte: usize) -> u64
    ensures { result ≡ number (slice_index const_widths byte) s.now at }
{
    match const_width(byte) {
        1 => u64::from(byte_at(s, at)),
        2 => u64::from(u16_at(s, at)),
        4 => u32_at(s, at) as u64,
        8 => u64_at(s, at),
        _ => 0,
    }
}

// The constant of the node at `at`.
pub fn constant<S: Sink>(s: &[u8], at: usize, c: &mut Counters, sink: &mut S)
    requires { (at + 6 ≤ length s.now) × (slice_index s.now (at + 5) < 16) }
    ensures { Emitted S.emitted (const_code s.now at) c.old sink.old c.new sink.new }
{
    let byte = usize::from(s[at + 5]);
    let value = value_at(s, at + 6, byte);
    c.plain(at, const_tag(byte, value), 0, value as usize, sink);
}

// The first four store the unit's index.
fn default_index(k: usize, i: usize) -> usize
    ensures { result ≡ (if nat_lt k 4 then i else 0) }
{
    if k < 4 { i } else { 0 }
}

impl Counters {
    pub fn returned<S: Sink>(&mut self, at: usize, sink: &mut S)
        ensures { Emitted S.emitted (lower_return_nothing at) self.old sink.old self.new sink.new }
    {
        self.plain(at, Tag::Return, 0, 0, sink);
        self.plain(at, Tag::Nop, 0, 0, sink);
    }

    // What stands before the element number i of the InitArray at `at`.
    pub fn element<S: Sink>(&mut self, at: usize, local: usize, typ: usize, i: usize, sink: &mut S)
        ensures { Emitted S.emitted (element_code at local typ i) self.old sink.old self.new sink.new }
    {
        self.plain(at, Tag::Assign, 0, 0, sink);
        self.plain(at, Tag::ArrayElement, 0, typ, sink);
        self.plain(at, Tag::Local, 0, local, sink);
        self.plain(at, Tag::U64Const, 0, i, sink);
    }

    // The value of a primitive's default, k of them after byte 5.
    pub(crate) fn primitive<S: Sink>(&mut self, at: usize, k: usize, i: usize, sink: &mut S)
        ensures { Emitted S.emitted (emits (primitive_default at k i)) self.old sink.old self.new sink.new }
    {
        if let Some(tag) = tables::default_tag(k) {
            self.plain(at, tag, 0, default_index(k, i), sink);
        }
    }
}

// InitDefault.
pub fn init_default<S: Sink>(s: &[u8], at: usize, c: &mut Counters, sink: &mut S)
    requires { (at + 14 ≤ length s.now) × (slice_index s.now (at + 9) < 23) }
    ensures { Emitted S.emitted (emits (default_instrs at (number 4 s.now (at + 5)) (slice_index s.now (at + 9)) (number 4 s.now (at + 10)))) c.old sink.old c.new sink.new }
{
    let local = u32_inside(s, at + 5);
    let byte = usize::from(s[at + 9]);
    let i = u32_inside(s, at + 10);
    if byte == 0 {
        return;
    }
    if byte == 1 {
        c.plain(at, Tag::ArrayClear, 0, i, sink);
        c.plain(at, Tag::Local, 0, local, sink);
        return;
    }
    c.plain(at, Tag::Assign, 0, 0, sink);
    c.plain(at, Tag::Local, 0, local, sink);
    match byte {
        2 => c.plain(at, Tag::Construct, 0, i, sink),
        3 => c.plain(at, Tag::Null, 0, 0, sink),
        4 => {
            c.plain(at, Tag::I32ToEnum, 1, i, sink);
            c.plain(at, Tag::I8Const, 0, 0, sink);
        }
        _ => c.primitive(at, byte - 5, i, sink),
    }
}
