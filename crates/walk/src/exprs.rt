// Expressions: one cycle of calls, in which the depth that is left falls.
use super::holders::Holder;
use instr::numbers::{u16_inside, u32_inside};
use instr::refusals::Refusal;
use instr::tag::Tag;
use ir::expr::ExprKind;
use steps::counters::Counters;
use steps::heads::{makes_labels, parts_at};
use steps::places::end_of;
use steps::sinks::Sink;
use steps::tags::invoke_tag;

impl Holder<'_> {
    ghost use Rattle.std.specs.Prelude.{◌≡◌, true, ◌+◌, ◌≤◌, length, get_or};
    ghost use Rattle.definitions.specs.Read.{parse_expr};
    ghost use Rattle.definitions.specs.Lower.{lower_arg};
    ghost use Rattle.ir.specs.declared.Class.TheVariants.{Expression};
    ghost use Rattle.steps.specs.Walked.{Accepted, list_of, expr_code, fill_code, exprs_from, marks_from, Called, args_code, call_code, span_of, makes_labels, Did};

    // An expression that was read.
    #[cycle(exprs)]
    pub(crate) fn node<S: Sink>(
        &self,
        at: usize,
        c: &mut Counters,
        sink: &mut S,
        marks: &mut [u32],
    ) -> Result<(), Refusal>
        requires accepted { Accepted (parse_expr self.now.nodes.depth self.now.nodes.unit.now self.now.nodes.end at) }
        ensures { Did S.emitted (expr_code self.now.nodes.depth self.now.nodes.unit.now self.now.nodes.end at) c.old sink.old marks.old result c.new sink.new marks.new }
    {
        let end = end_of(self.nodes.unit, at);
        self.up_to(end).exprs(at, c, sink, marks)
    }

    // Expressions one after the other up to the end. One that makes no label is its record and then its parts, which stand where the run
    // goes on: no call goes down to them.
    #[cycle(exprs)]
    pub(crate) fn exprs<S: Sink>(
        &self,
        at: usize,
        c: &mut Counters,
        sink: &mut S,
        marks: &mut [u32],
    ) -> Result<(), Refusal>
        requires accepted { Accepted (exprs_from self.now.nodes.depth self.now.nodes.unit.now self.now.nodes.end at) }
        requires at_le_end { at ≤ self.now.nodes.end }
        ensures { Did S.emitted (fill_code Expression self.now.nodes.depth self.now.nodes.unit.now self.now.nodes.end at (span_of self.now.span)) c.old sink.old marks.old result c.new sink.new marks.new }
    {
        let mut item = at;
        while item < self.nodes.end {
            let stop = end_of(self.nodes.unit, item);
            if makes_labels(self.nodes.unit[item + 4]) {
                self.labelled(item, c, sink, marks)?;
                item = stop;
            } else {
                self.nodes.head(item, c, sink)?;
                item = parts_at(self.nodes.unit, item, stop);
            }
        }
        Ok(())
    }

    // An expression whose rule makes labels. Not inlined, so that `exprs`, where all others stay, has a small frame.
    #[inline(never)]
    #[cycle(exprs)]
    fn labelled<S: Sink>(
        &self,
        at: usize,
        c: &mut Counters,
        sink: &mut S,
        marks: &mut [u32],
    ) -> Result<(), Refusal>
        requires accepted { Accepted (parse_expr self.now.nodes.depth self.now.nodes.unit.now self.now.nodes.end at) }
        requires at_value { makes_labels (get_or self.now.nodes.unit.now (at + 4) 0) ≡ true }
        ensures { Did S.emitted (expr_code self.now.nodes.depth self.now.nodes.unit.now self.now.nodes.end at) c.old sink.old marks.old result c.new sink.new marks.new }
    {
        let Ok(kind) = ExprKind::try_from(self.nodes.unit[at + 4]) else {
            return Ok(());
        };
        match kind {
            ExprKind::Field => self.field(at, c, sink, marks),
            ExprKind::Conditional => self.ternary(at, c, sink, marks),
            ExprKind::FreeCall => self.inner(at).call(at + 5, at, c, sink, marks),
            ExprKind::StaticCall => {
                let exit = c.new_label(at, marks)?;
                self.inner(at).call(at + 5, at, c, sink, marks)?;
                c.mark_label(exit, marks);
                Ok(())
            }
            ExprKind::InstanceCall => self.instance(at, c, sink, marks),
            ExprKind::ClosureCall => self.closure(at, c, sink, marks),
            _ => Ok(()),
        }
    }

    // Field: of a struct, or of an object behind a Context.
    #[cycle(exprs)]
    fn field<S: Sink>(
        &self,
        at: usize,
        c: &mut Counters,
        sink: &mut S,
        marks: &mut [u32],
    ) -> Result<(), Refusal>
        requires accepted { Accepted (parse_expr self.now.nodes.depth self.now.nodes.unit.now self.now.nodes.end at) }
        requires at_value { get_or self.now.nodes.unit.now (at + 4) 0 ≡ 7 }
        ensures { Did S.emitted (expr_code self.now.nodes.depth self.now.nodes.unit.now self.now.nodes.end at) c.old sink.old marks.old result c.new sink.new marks.new }
    {
        let below = self.inner(at);
        let form = usize::from(self.nodes.unit[at + 5]);
        let name = u32_inside(self.nodes.unit, at + 6);
        let first = at + 10;
        if form == 0 {
            c.plain(at, Tag::StructField, 0, name, sink);
            return below.node(first, c, sink, marks);
        }
        let exit = c.new_label(at, marks)?;
        c.jump(at, Tag::Context, exit, sink);
        c.weak_to_ref(at, form - 1, sink);
        below.node(first, c, sink, marks)?;
        c.plain(at, Tag::ObjectField, 0, name, sink);
        c.mark_label(exit, marks);
        Ok(())
    }

    // Conditional.
    #[cycle(exprs)]
    fn ternary<S: Sink>(
        &self,
        at: usize,
        c: &mut Counters,
        sink: &mut S,
        marks: &mut [u32],
    ) -> Result<(), Refusal>
        requires accepted { Accepted (parse_expr self.now.nodes.depth self.now.nodes.unit.now self.now.nodes.end at) }
        requires at_value { get_or self.now.nodes.unit.now (at + 4) 0 ≡ 9 }
        ensures { Did S.emitted (expr_code self.now.nodes.depth self.now.nodes.unit.now self.now.nodes.end at) c.old sink.old marks.old result c.new sink.new marks.new }
    {
        let below = self.inner(at);
        let first = at + 5;
        let second = end_of(self.nodes.unit, first);
        let third = end_of(self.nodes.unit, second);
        let other = c.new_label(at, marks)?;
        let exit = c.new_label(at, marks)?;
        c.jumps(at, Tag::Conditional, other, exit, sink);
        below.node(first, c, sink, marks)?;
        below.node(second, c, sink, marks)?;
        c.mark_label(other, marks);
        below.node(third, c, sink, marks)?;
        c.mark_label(exit, marks);
        Ok(())
    }

    // An instance call.
    #[cycle(exprs)]
    fn instance<S: Sink>(
        &self,
        at: usize,
        c: &mut Counters,
        sink: &mut S,
        marks: &mut [u32],
    ) -> Result<(), Refusal>
        requires accepted { Accepted (parse_expr self.now.nodes.depth self.now.nodes.unit.now self.now.nodes.end at) }
        requires at_value { get_or self.now.nodes.unit.now (at + 4) 0 ≡ 15 }
        ensures { Did S.emitted (expr_code self.now.nodes.depth self.now.nodes.unit.now self.now.nodes.end at) c.old sink.old marks.old result c.new sink.new marks.new }
    {
        let below = self.inner(at);
        let first = at + 6;
        let second = end_of(self.nodes.unit, first);
        let weak = usize::from(self.nodes.unit[at + 5]);
        let exit = c.new_label(at, marks)?;
        c.jump(at, Tag::Context, exit, sink);
        c.weak_to_ref(at, weak, sink);
        below.node(first, c, sink, marks)?;
        below.call(second, at, c, sink, marks)?;
        c.mark_label(exit, marks);
        Ok(())
    }

    // A closure call.
    #[cycle(exprs)]
    fn closure<S: Sink>(
        &self,
        at: usize,
        c: &mut Counters,
        sink: &mut S,
        marks: &mut [u32],
    ) -> Result<(), Refusal>
        requires accepted { Accepted (parse_expr self.now.nodes.depth self.now.nodes.unit.now self.now.nodes.end at) }
        requires at_value { get_or self.now.nodes.unit.now (at + 4) 0 ≡ 16 }
        ensures { Did S.emitted (expr_code self.now.nodes.depth self.now.nodes.unit.now self.now.nodes.end at) c.old sink.old marks.old result c.new sink.new marks.new }
    {
        let below = self.inner(at);
        let first = at + 5;
        let second = end_of(self.nodes.unit, first);
        let name = u32_inside(self.nodes.unit, second);
        let line = u16_inside(self.nodes.unit, second + 4);
        let context = c.new_label(at, marks)?;
        c.jump(at, Tag::Context, context, sink);
        below.node(first, c, sink, marks)?;
        c.mark_label(context, marks);
        let past = c.new_label(at, marks)?;
        c.invoke(at, invoke_tag(0), past, line, 0, name, sink);
        below.exprs(second + 10, c, sink, marks)?;
        c.plain(at, Tag::ParamEnd, 0, 0, sink);
        c.mark_label(past, marks);
        Ok(())
    }

    // A function, whose fields begin at `at`, and its arguments, which end the node at `site`: emit_call.
    #[cycle(exprs)]
    fn call<S: Sink>(
        &self,
        at: usize,
        site: usize,
        c: &mut Counters,
        sink: &mut S,
        marks: &mut [u32],
    ) -> Result<(), Refusal>
        requires called { Called self.now.nodes.depth self.now.nodes.unit.now self.now.nodes.end at }
        ensures { Did S.emitted (call_code self.now.nodes.depth self.now.nodes.unit.now self.now.nodes.end at site) c.old sink.old marks.old result c.new sink.new marks.new }
    {
        let n = usize::from(self.nodes.unit[at + 11]);
        let first = at + 16 + n;
        let exit = c.new_label(site, marks)?;
        self.nodes.check_flags(first)?;
        self.nodes.emit_invoke(at, site, exit, c, sink);
        self.args(first, site, at + 12, n, c, sink, marks)?;
        c.plain(site, Tag::ParamEnd, 0, 0, sink);
        c.mark_label(exit, marks);
        Ok(())
    }

    // Arguments with the marks of their parameters, then a Nop for each that is absent.
    #[cycle(exprs)]
    fn args<S: Sink>(
        &self,
        at: usize,
        site: usize,
        params: usize,
        n: usize,
        c: &mut Counters,
        sink: &mut S,
        marks: &mut [u32],
    ) -> Result<(), Refusal>
        requires accepted { Accepted (exprs_from self.now.nodes.depth self.now.nodes.unit.now self.now.nodes.end at) }
        requires at_le_end { (at ≤ self.now.nodes.end) × (params + n ≤ at) × (length (list_of (exprs_from self.now.nodes.depth self.now.nodes.unit.now self.now.nodes.end at)) ≤ n) }
        ensures { Did S.emitted (args_code self.now.nodes.depth self.now.nodes.unit.now self.now.nodes.end at site (marks_from self.now.nodes.unit.now params n)) c.old sink.old marks.old result c.new sink.new marks.new }
    {
        let mut i = at;
        let mut p = params;
        let mut left = n;
        while i < self.nodes.end {
            let short = usize::from(self.nodes.unit[p]);
            self.arg(i, site, short, c, sink, marks)?;
            i = end_of(self.nodes.unit, i);
            p += 1;
            left -= 1;
        }
        c.nops(site, left, sink);
        Ok(())
    }

    // An argument, behind a Skip where its parameter is short-circuit.
    #[cycle(exprs)]
    fn arg<S: Sink>(
        &self,
        at: usize,
        site: usize,
        short: usize,
        c: &mut Counters,
        sink: &mut S,
        marks: &mut [u32],
    ) -> Result<(), Refusal>
        requires accepted { Accepted (parse_expr self.now.nodes.depth self.now.nodes.unit.now self.now.nodes.end at) }
        ensures { Did S.emitted (lower_arg site short (expr_code self.now.nodes.depth self.now.nodes.unit.now self.now.nodes.end at)) c.old sink.old marks.old result c.new sink.new marks.new }
    {
        if short == 0 {
            return self.node(at, c, sink, marks);
        }
        let skip = c.new_label(site, marks)?;
        c.jump(site, Tag::Skip, skip, sink);
        self.node(at, c, sink, marks)?;
        c.mark_label(skip, marks);
        Ok(())
    }
}
