// Expressions that are one record and then their parts in order: the record, and where the parts begin.
ghost use Rattle.std.specs.Prelude.{◌≡◌, ◌+◌, ◌-◌, ◌<◌, ◌≤◌, length, slice_index};
ghost use Rattle.definitions.specs.Read.{parse_expr};
ghost use Rattle.ir.specs.Places.{end_of};
ghost use Rattle.steps.specs.Walked.{Accepted, Emits, exprs_from, construct_code, intrinsic_code, head_code, makes_labels, parts_from, parts_at};

use crate::counters::Counters;
use crate::pieces::constant;
use crate::places::{Nodes, end_of};
use crate::refusals::require;
use crate::sinks::Sink;
use crate::tags::{element_tag, intrinsic_small, intrinsic_tag, local_tag, null_tag, typed};
use instr::numbers::u32_inside;
use instr::refusals::{Reason, Refusal};
use instr::tag::Tag;
use ir::expr::ExprKind;

pub(crate) fn intrinsic<S: Sink>(
    s: &[u8],
    at: usize,
    c: &mut Counters,
    sink: &mut S,
) -> Result<(), Refusal>
    requires { (at + 12 ≤ length s.now) × (slice_index s.now (at + 5) < 34) }
    ensures { Emits S.emitted (intrinsic_code s.now at) c.old sink.old result c.new sink.new }
{
    let code = usize::from(s[at + 5]);
    let fits = typed(code, usize::from(s[at + 6]), usize::from(s[at + 7]));
    require(fits, Refusal::at(Reason::Intrinsic, at))?;
    let i = u32_inside(s, at + 8);
    c.plain(at, intrinsic_tag(code), intrinsic_small(code), i, sink);
    Ok(())
}

impl Nodes<'_> {
    // Construct, of which these are the arguments.
    fn construct<S: Sink>(&self, at: usize, c: &mut Counters, sink: &mut S) -> Result<(), Refusal>
        requires accepted { Accepted (exprs_from self.now.depth self.now.unit.now self.now.end (at + 13)) }
        requires at_bound { at + 13 ≤ self.now.end }
        ensures { Emits S.emitted (construct_code self.now.depth self.now.unit.now self.now.end at) c.old sink.old result c.new sink.new }
    {
        let n = self.count(at + 13);
        let construct = Refusal {
            reason: Reason::Construct,
            place: at,
            extra: n,
        };
        require(n < 256, construct)?;
        c.plain(at, Tag::Construct, n, u32_inside(self.unit, at + 5), sink);
        Ok(())
    }

    // The record of the node at `at`.
    pub fn head<S: Sink>(&self, at: usize, c: &mut Counters, sink: &mut S) -> Result<(), Refusal>
        requires { Accepted (parse_expr self.now.depth self.now.unit.now self.now.end at) }
        ensures { Emits S.emitted (head_code (self.now.depth - 1) self.now.unit.now (end_of self.now.unit.now at) at) c.old sink.old result c.new sink.new }
    {
        let s = self.unit;
        let Ok(kind) = ExprKind::try_from(s[at + 4]) else {
            return Ok(());
        };
        match kind {
            ExprKind::Nop => c.plain(at, Tag::Nop, 0, 0, sink),
            ExprKind::Const => constant(s, at, c, sink),
            ExprKind::Null => c.plain(at, null_tag(s[at + 5]), 0, 0, sink),
            ExprKind::NewInstance => c.plain(at, Tag::New, 0, u32_inside(s, at + 5), sink),
            ExprKind::Construct => return self.inner(at).construct(at, c, sink),
            ExprKind::Assign => c.plain(at, Tag::Assign, 0, 0, sink),
            ExprKind::Index => {
                let t = element_tag(s[at + 5]);
                c.plain(at, t, 0, u32_inside(s, at + 6), sink);
            }
            ExprKind::DynCast => {
                let weak = usize::from(s[at + 9]);
                c.plain(at, Tag::DynamicCast, weak, u32_inside(s, at + 5), sink);
            }
            ExprKind::Local => {
                let t = local_tag(s[at + 5]);
                c.plain(at, t, 0, u32_inside(s, at + 6), sink);
            }
            ExprKind::IntrinsicCall => return intrinsic(s, at, c, sink),
            ExprKind::Field
            | ExprKind::Conditional
            | ExprKind::FreeCall
            | ExprKind::StaticCall
            | ExprKind::InstanceCall
            | ExprKind::ClosureCall => {}
        }
        Ok(())
    }
}

// Whether the rule of this kind makes labels. Every other kind is one record and then its parts in order.
#[tactic(auto, unfolding(crate::specs::Walked::makes_labels))]
pub fn makes_labels(kind: u8) -> bool
    ensures { result ≡ makes_labels kind }
{
    matches!(
        ExprKind::try_from(kind),
        Ok(
            ExprKind::Field
                | ExprKind::Conditional
                | ExprKind::FreeCall
                | ExprKind::StaticCall
                | ExprKind::InstanceCall
                | ExprKind::ClosureCall
        )
    )
}

// How far into a node of this kind its parts begin; 0 where it has none.
#[tactic(auto, unfolding(crate::specs::Walked::parts_from))]
pub(crate) fn parts_from(kind: u8) -> usize
    ensures { (result ≡ parts_from kind) × (result ≤ 16) }
{
    match ExprKind::try_from(kind) {
        Ok(ExprKind::Construct) => 13,
        Ok(ExprKind::Assign) => 5,
        Ok(ExprKind::Index | ExprKind::DynCast) => 10,
        Ok(ExprKind::IntrinsicCall) => 16,
        _ => 0,
    }
}

// Where the parts of the node at `at` begin, which ends at `stop`: there, where it has none.
pub fn parts_at(s: &[u8], at: usize, stop: usize) -> usize
    requires { at + 5 ≤ length s.now }
    ensures { result ≡ parts_at s.now stop at }
{
    let n = parts_from(s[at + 4]);
    if n == 0 {
        return stop;
    }
    at + n
}
