// The parts of a call that hold no node.
ghost use Rattle.std.specs.Prelude.{◌≡◌, ◌+◌, ◌%◌, ◌^◌, ◌≤◌, ◌==◌, cond, not, ◌||◌, length, nat_lt, slice_index};
ghost use Rattle.definitions.specs.Bytes.{number};
ghost use Rattle.definitions.specs.Tree.{exprs_of};
ghost use Rattle.definitions.specs.Lower.{weak_to_ref, emit_invoke, require_flags, flags_of};
ghost use Rattle.steps.specs.Walked.{Accepted, list_of, exprs_from, callee_at, args_at, Called, Emitted, Left, Nops};

use crate::counters::Counters;
use crate::places::{Nodes, end_of};
use crate::refusals::require;
use crate::sinks::Sink;
use crate::tags::invoke_tag;
use instr::numbers::{u16_inside, u32_inside};
use instr::refusals::{Reason, Refusal};
use instr::tag::Tag;
use ir::args::is_prvalue_ref;

// Whether argument k may be as it is: one that is flagged only below 16.
fn flag_fits(flagged: bool, k: usize) -> bool
    ensures { result ≡ (not «flagged» || nat_lt k 16) }
{
    !flagged || k < 16
}

// An argument's bit, where it is flagged.
fn bit_if(flagged: bool, bit: u16) -> u16
    ensures { result ≡ cond «flagged» bit 0 }
{
    if flagged { bit } else { 0 }
}

// The name where no bit of the flag byte is set, else the function.
fn invoke_value(s: &[u8], at: usize) -> usize
    requires { at + 11 ≤ length s.now }
    ensures { result ≡ cond (slice_index s.now (at + 10) == 0) (number 4 s.now (at + 4)) (number 4 s.now at) }
{
    if s[at + 10] == 0 {
        u32_inside(s, at + 4)
    } else {
        u32_inside(s, at)
    }
}

impl Nodes<'_> {
    // 13, of the first flagged argument at index 16 or later. Decided for all arguments before any is emitted.
    pub fn check_flags(&self, at: usize) -> Result<(), Refusal>
        requires accepted { Accepted (exprs_from self.now.depth self.now.unit.now self.now.end at) }
        requires at_le_end { at ≤ self.now.end }
        ensures { Left (require_flags (exprs_of (list_of (exprs_from self.now.depth self.now.unit.now self.now.end at))) 0) result }
    {
        let mut i = at;
        let mut k = 0;
        while i < self.end {
            let fits = flag_fits(is_prvalue_ref(self.unit, i), k);
            let flag = Refusal {
                reason: Reason::Flag,
                place: i,
                extra: k + 1,
            };
            require(fits, flag)?;
            i = end_of(self.unit, i);
            k += 1;
        }
        Ok(())
    }

    // The flags of all arguments, a bit for each.
    pub fn flags_of(&self, at: usize) -> u16
        requires accepted { Accepted (exprs_from self.now.depth self.now.unit.now self.now.end at) }
        requires at_le_end { at ≤ self.now.end }
        ensures { result ≡ flags_of (exprs_of (list_of (exprs_from self.now.depth self.now.unit.now self.now.end at))) 1 % 2 ^ 16 }
    {
        let mut i = at;
        let mut bit: u16 = 1;
        let mut flags: u16 = 0;
        while i < self.end {
            flags = flags.wrapping_add(bit_if(is_prvalue_ref(self.unit, i), bit));
            bit = bit.wrapping_add(bit);
            i = end_of(self.unit, i);
        }
        flags
    }

    // InvokeStatic with the function where any flag bit is set, else InvokeVirtual with the name, for the call at `site`.
    pub fn emit_invoke<S: Sink>(
        &self,
        at: usize,
        site: usize,
        exit: usize,
        c: &mut Counters,
        sink: &mut S,
    )
        requires { Called self.now.depth self.now.unit.now self.now.end at }
        ensures { Emitted S.emitted (emit_invoke site (callee_at self.now.unit.now at).flags exit (callee_at self.now.unit.now at).line (flags_of (exprs_of (list_of (exprs_from self.now.depth self.now.unit.now self.now.end (args_at self.now.unit.now at)))) 1) (callee_at self.now.unit.now at).function (callee_at self.now.unit.now at).name) c.old sink.old c.new sink.new }
    {
        let s = self.unit;
        let flags = self.flags_of(at + 16 + usize::from(s[at + 11]));
        let line = u16_inside(s, at + 8);
        let value = invoke_value(s, at);
        c.invoke(site, invoke_tag(s[at + 10]), exit, line, flags, value, sink);
    }
}

impl Counters {
    // A Nop for each of n parameters that are absent in the call at `site`.
    pub fn nops<S: Sink>(&mut self, site: usize, n: usize, sink: &mut S)
        ensures { Nops S.emitted site n self.old sink.old self.new sink.new }
    {
        for _i in 0..n {
            self.plain(site, Tag::Nop, 0, 0, sink);
        }
    }

    // `weak` is a mark: the definitions take any number.
    pub fn weak_to_ref<S: Sink>(&mut self, at: usize, weak: usize, sink: &mut S)
        ensures { Emitted S.emitted (weak_to_ref at weak) self.old sink.old self.new sink.new }
    {
        if weak != 0 {
            self.plain(at, Tag::WeakRefToRef, 0, 0, sink);
        }
    }
}
