// Statements: one cycle of calls, in which the depth that is left falls.
ghost use Rattle.std.specs.Prelude.{◌≤◌, length};
ghost use Rattle.definitions.specs.Read.{parse_stmt, filling};
ghost use Rattle.ir.specs.declared.Class.TheVariants.{Statement};
ghost use Rattle.steps.specs.Walked.{Accepted, fill_code, span_of, Did};

use super::holders::Holder;
use instr::numbers::u32_inside;
use instr::refusals::{Reason, Refusal};
use instr::tag::Tag;
use ir::stmt::StmtKind;
use steps::counters::Counters;
use steps::pieces::init_default;
use steps::places::{Nodes, end_of};
use steps::sinks::Sink;
use steps::spans::BlockSpan;
use steps::switches::{ends_group, group_after, is_mid, is_same};

// Statements one after the other up to `end`.
pub fn stmts<S: Sink>(
    s: &[u8],
    at: usize,
    end: usize,
    depth: usize,
    span: BlockSpan,
    c: &mut Counters,
    sink: &mut S,
    marks: &mut [u32],
) -> Result<(), Refusal>
    requires accepted { Accepted (filling (parse_stmt depth s.now) end at) }
    requires at_le_end { (at ≤ end) × (end ≤ length s.now) }
    ensures { Did S.emitted (fill_code Statement depth s.now end at (span_of span)) c.old sink.old marks.old result c.new sink.new marks.new }
{
    let nodes = Nodes {
        unit: s,
        end,
        depth,
    };
    let whole = Holder { nodes, span };
    whole.stmts(at, c, sink, marks)
}

impl Holder<'_> {
    ghost use Rattle.std.specs.Prelude.{◌≡◌, ◌≢◌, ◌+◌, ◌<◌, ◌^◌, get_or};
    ghost use Rattle.std.proofs.Math.Option.{none};
    ghost use Rattle.definitions.specs.Tag.{Jump, JumpIfFalse, SwitchLabel};
    ghost use Rattle.definitions.specs.Tree.{exprs_of, branches_of, cases_of};
    ghost use Rattle.definitions.specs.Read.{parse_expr, arm};
    ghost use Rattle.definitions.specs.Code.{mark, act, ◌then◌};
    ghost use Rattle.definitions.specs.Lower.{jump, jumps, lower_expr, lower_block, lower_branches, lower_default, lower_cases, lower_matchers, lower_bodies, lower_elements};
    ghost use Rattle.definitions.specs.Bytes.{number};
    ghost use Rattle.ir.specs.Kinds as kinds;
    ghost use Rattle.ir.specs.declared.stmt.StmtKind.TheVariants.{Expr, Block};
    ghost use Rattle.ir.specs.Places.{end_of};
    ghost use Rattle.steps.specs.Walked.{DefaultHere, Cased, code_of, list_of, stmt_code, exprs_from, arms_from, cases_from, arm_code, default_from, default_of, mid_code, inside_code, ending};

    // Statements one after the other up to the end. A block is its statements, which stand where the run goes on.
    #[cycle(stmts)]
    fn stmts<S: Sink>(
        &self,
        at: usize,
        c: &mut Counters,
        sink: &mut S,
        marks: &mut [u32],
    ) -> Result<(), Refusal>
        requires accepted { Accepted (filling (parse_stmt self.now.nodes.depth self.now.nodes.unit.now) self.now.nodes.end at) }
        requires at_le_end { at ≤ self.now.nodes.end }
        ensures { Did S.emitted (fill_code Statement self.now.nodes.depth self.now.nodes.unit.now self.now.nodes.end at (span_of self.now.span)) c.old sink.old marks.old result c.new sink.new marks.new }
    {
        let mut here = at;
        while here < self.nodes.end {
            let Ok(kind) = StmtKind::try_from(self.nodes.unit[here + 4]) else {
                return Ok(());
            };
            match kind {
                StmtKind::Block => here += 9,
                StmtKind::Expr => {
                    let inner = self.inner(here);
                    inner.exprs(here + 5, c, sink, marks)?;
                    here = inner.nodes.end;
                }
                _ => {
                    self.stmt(kind, here, c, sink, marks)?;
                    here = end_of(self.nodes.unit, here);
                }
            }
        }
        Ok(())
    }

    // A statement that is neither an expression nor a block. Not inlined, so that `stmts`, where these stay, has a small frame.
    #[inline(never)]
    #[cycle(stmts)]
    fn stmt<S: Sink>(
        &self,
        kind: StmtKind,
        at: usize,
        c: &mut Counters,
        sink: &mut S,
        marks: &mut [u32],
    ) -> Result<(), Refusal>
        requires accepted { Accepted (parse_stmt self.now.nodes.depth self.now.nodes.unit.now self.now.nodes.end at) }
        requires kind { kinds.stmt_code kind ≡ get_or self.now.nodes.unit.now (at + 4) 0 }
        requires other { (kind ≢ Expr) × (kind ≢ Block) }
        ensures { Did S.emitted (stmt_code self.now.nodes.depth self.now.nodes.unit.now self.now.nodes.end at (span_of self.now.span)) c.old sink.old marks.old result c.new sink.new marks.new }
    {
        match kind {
            StmtKind::Expr | StmtKind::Block => Ok(()),
            StmtKind::While => self.repeat(at, c, sink, marks),
            StmtKind::Branches => self.branches(at, c, sink, marks),
            StmtKind::Switch => self.switch(at, c, sink, marks),
            StmtKind::InitArray => self.array(at, c, sink, marks),
            StmtKind::InitDefault => {
                init_default(self.nodes.unit, at, c, sink);
                Ok(())
            }
            StmtKind::Break => {
                let outside = Refusal::at(Reason::Break, at);
                c.jump_to(at, self.span.break_target, outside, sink)
            }
            StmtKind::Continue => {
                let outside = Refusal::at(Reason::Continue, at);
                c.jump_to(at, self.span.continue_target, outside, sink)
            }
            StmtKind::Return => self.ret(at, c, sink, marks),
        }
    }

    // While.
    #[cycle(stmts)]
    fn repeat<S: Sink>(
        &self,
        at: usize,
        c: &mut Counters,
        sink: &mut S,
        marks: &mut [u32],
    ) -> Result<(), Refusal>
        requires accepted { Accepted (parse_stmt self.now.nodes.depth self.now.nodes.unit.now self.now.nodes.end at) }
        requires at_value { get_or self.now.nodes.unit.now (at + 4) 0 ≡ 3 }
        ensures { Did S.emitted (stmt_code self.now.nodes.depth self.now.nodes.unit.now self.now.nodes.end at (span_of self.now.span)) c.old sink.old marks.old result c.new sink.new marks.new }
    {
        let below = self.inner(at);
        let first = at + 5;
        let second = end_of(self.nodes.unit, first);
        let start = c.new_label(at, marks)?;
        let finish = c.new_label(at, marks)?;
        c.mark_label(start, marks);
        c.jump(at, Tag::JumpIfFalse, finish, sink);
        below.node(first, c, sink, marks)?;
        let body = below.in_loop(start, finish);
        body.stmts(second + 4, c, sink, marks)?;
        c.jump(at, Tag::Jump, start, sink);
        c.mark_label(finish, marks);
        Ok(())
    }

    // Branches.
    #[cycle(stmts)]
    fn branches<S: Sink>(
        &self,
        at: usize,
        c: &mut Counters,
        sink: &mut S,
        marks: &mut [u32],
    ) -> Result<(), Refusal>
        requires accepted { Accepted (parse_stmt self.now.nodes.depth self.now.nodes.unit.now self.now.nodes.end at) }
        requires at_value { get_or self.now.nodes.unit.now (at + 4) 0 ≡ 4 }
        ensures { Did S.emitted (stmt_code self.now.nodes.depth self.now.nodes.unit.now self.now.nodes.end at (span_of self.now.span)) c.old sink.old marks.old result c.new sink.new marks.new }
    {
        let below = self.inner(at);
        let list = end_of(self.nodes.unit, at + 5);
        let next = c.new_label(at, marks)?;
        let exit = c.new_label(at, marks)?;
        let branches = below.up_to(list);
        branches.arms(at + 9, at, next, exit, c, sink, marks)?;
        let there = usize::from(self.nodes.unit[list]);
        below.default(list + 1, there, c, sink, marks)?;
        c.mark_label(exit, marks);
        Ok(())
    }

    // The branches of the node at `site`; `first` is the label of the first.
    #[cycle(stmts)]
    fn arms<S: Sink>(
        &self,
        at: usize,
        site: usize,
        first: usize,
        exit: usize,
        c: &mut Counters,
        sink: &mut S,
        marks: &mut [u32],
    ) -> Result<(), Refusal>
        requires accepted { Accepted (arms_from self.now.nodes.depth self.now.nodes.unit.now self.now.nodes.end at) }
        requires at_le_end { at ≤ self.now.nodes.end }
        ensures { Did S.emitted (code_of (λ xs. lower_branches (branches_of xs) site first exit (span_of self.now.span)) (arms_from self.now.nodes.depth self.now.nodes.unit.now self.now.nodes.end at)) c.old sink.old marks.old result c.new sink.new marks.new }
    {
        let mut i = at;
        let mut next = first;
        while i < self.nodes.end {
            self.arm(i, site, next, exit, c, sink, marks)?;
            next = c.new_label(site, marks)?;
            let second = end_of(self.nodes.unit, i);
            i = end_of(self.nodes.unit, second);
        }
        Ok(())
    }

    // A branch of the node at `site`. It finds its places again, as a case does: handed on, they would stand in its clauses.
    #[cycle(stmts)]
    fn arm<S: Sink>(
        &self,
        at: usize,
        site: usize,
        next: usize,
        exit: usize,
        c: &mut Counters,
        sink: &mut S,
        marks: &mut [u32],
    ) -> Result<(), Refusal>
        requires accepted { Accepted (arm self.now.nodes.unit.now (parse_expr self.now.nodes.depth self.now.nodes.unit.now) (parse_stmt self.now.nodes.depth self.now.nodes.unit.now) self.now.nodes.end at) }
        ensures { Did S.emitted (arm_code (λ c b. jump site JumpIfFalse next then lower_expr c then lower_block b (span_of self.now.span) then jump site Jump exit then act (mark next)) self.now.nodes.depth self.now.nodes.unit.now self.now.nodes.end at) c.old sink.old marks.old result c.new sink.new marks.new }
    {
        let second = end_of(self.nodes.unit, at);
        let third = end_of(self.nodes.unit, second);
        c.jump(site, Tag::JumpIfFalse, next, sink);
        self.node(at, c, sink, marks)?;
        self.up_to(third).stmts(second + 4, c, sink, marks)?;
        c.jump(site, Tag::Jump, exit, sink);
        c.mark_label(next, marks);
        Ok(())
    }

    // The default block, where its mark, a number as in the definitions, is not 0.
    #[cycle(stmts)]
    fn default<S: Sink>(
        &self,
        at: usize,
        there: usize,
        c: &mut Counters,
        sink: &mut S,
        marks: &mut [u32],
    ) -> Result<(), Refusal>
        requires default_here { DefaultHere there self.now.nodes.depth self.now.nodes.unit.now self.now.nodes.end at }
        ensures { Did S.emitted (code_of (λ d. lower_default d (span_of self.now.span)) (default_from there self.now.nodes.depth self.now.nodes.unit.now self.now.nodes.end at)) c.old sink.old marks.old result c.new sink.new marks.new }
    {
        if there == 0 {
            return Ok(());
        }
        self.stmts(at + 4, c, sink, marks)
    }

    // Switch.
    #[cycle(stmts)]
    fn switch<S: Sink>(
        &self,
        at: usize,
        c: &mut Counters,
        sink: &mut S,
        marks: &mut [u32],
    ) -> Result<(), Refusal>
        requires accepted { Accepted (parse_stmt self.now.nodes.depth self.now.nodes.unit.now self.now.nodes.end at) }
        requires at_value { get_or self.now.nodes.unit.now (at + 4) 0 ≡ 5 }
        ensures { Did S.emitted (stmt_code self.now.nodes.depth self.now.nodes.unit.now self.now.nodes.end at (span_of self.now.span)) c.old sink.old marks.old result c.new sink.new marks.new }
    {
        let below = self.inner(at);
        let first = at + 9;
        let second = end_of(self.nodes.unit, first);
        let typ = u32_inside(self.nodes.unit, at + 5);
        let finish = c.new_label(at, marks)?;
        let label = c.new_label(at, marks)?;
        c.switch(at, typ, label, sink);
        below.node(first, c, sink, marks)?;
        let cases = below.in_switch(finish);
        cases.inside(second, at, label, c, sink, marks)?;
        c.mark_label(finish, marks);
        Ok(())
    }

    // What stands in a switch after its value, from `at` on: default_index, the default's mark, the cases, the default.
    #[cycle(stmts)]
    fn inside<S: Sink>(
        &self,
        at: usize,
        site: usize,
        first: usize,
        c: &mut Counters,
        sink: &mut S,
        marks: &mut [u32],
    ) -> Result<(), Refusal>
        requires cased { Cased (get_or self.now.nodes.unit.now (at + 4) 0) self.now.nodes.depth self.now.nodes.unit.now self.now.nodes.end at }
        ensures { Did S.emitted (inside_code self.now.nodes.depth self.now.nodes.unit.now self.now.nodes.end at site first (span_of self.now.span)) c.old sink.old marks.old result c.new sink.new marks.new }
    {
        let stop = end_of(self.nodes.unit, at + 5);
        let list = self.up_to(stop);
        let index = u32_inside(self.nodes.unit, at);
        let there = usize::from(self.nodes.unit[at + 4]);
        let n = list.count_arms(at + 9);
        if is_mid(there, index, n) {
            return self.mid(at, site, first, n, c, sink, marks);
        }
        list.cases(at + 9, site, first, c, sink, marks)?;
        if there == 0 {
            return Ok(());
        }
        c.plain(site, Tag::SwitchDefault, 0, 0, sink);
        self.stmts(stop + 4, c, sink, marks)
    }

    // Cases in groups: each block after its matcher.
    #[cycle(stmts)]
    fn cases<S: Sink>(
        &self,
        at: usize,
        site: usize,
        first: usize,
        c: &mut Counters,
        sink: &mut S,
        marks: &mut [u32],
    ) -> Result<(), Refusal>
        requires accepted { Accepted (arms_from self.now.nodes.depth self.now.nodes.unit.now self.now.nodes.end at) }
        requires at_le_end { at ≤ self.now.nodes.end }
        ensures { Did S.emitted (code_of (λ cs. lower_cases (cases_of cs) site first none (span_of self.now.span)) (arms_from self.now.nodes.depth self.now.nodes.unit.now self.now.nodes.end at)) c.old sink.old marks.old result c.new sink.new marks.new }
    {
        let mut i = at;
        let mut next = first;
        let mut group = None;
        while i < self.nodes.end {
            let second = end_of(self.nodes.unit, i);
            let third = end_of(self.nodes.unit, second);
            let ends = ends_group(second + 4, third, self.nodes.end);
            let body = c.body_label(group, site, marks)?;
            c.mark_label(next, marks);
            next = c.new_label(site, marks)?;
            self.case(i, site, next, body, ends, c, sink, marks)?;
            group = group_after(ends, body);
            i = third;
        }
        c.mark_label(next, marks);
        Ok(())
    }

    // A case of the node at `site`; its block, where it ends its group.
    #[cycle(stmts)]
    fn case<S: Sink>(
        &self,
        at: usize,
        site: usize,
        next: usize,
        body: usize,
        ends: bool,
        c: &mut Counters,
        sink: &mut S,
        marks: &mut [u32],
    ) -> Result<(), Refusal>
        requires accepted { Accepted (arm self.now.nodes.unit.now (parse_expr self.now.nodes.depth self.now.nodes.unit.now) (parse_stmt self.now.nodes.depth self.now.nodes.unit.now) self.now.nodes.end at) }
        ensures { Did S.emitted (arm_code (λ c b. jumps site SwitchLabel next body then lower_expr c then ending ends body (lower_block b (span_of self.now.span))) self.now.nodes.depth self.now.nodes.unit.now self.now.nodes.end at) c.old sink.old marks.old result c.new sink.new marks.new }
    {
        let second = end_of(self.nodes.unit, at);
        let third = end_of(self.nodes.unit, second);
        c.jumps(site, Tag::SwitchLabel, next, body, sink);
        self.node(at, c, sink, marks)?;
        if ends {
            c.mark_label(body, marks);
            return self.up_to(third).stmts(second + 4, c, sink, marks);
        }
        Ok(())
    }

    // The n cases where the default stands before one of them: all matchers, then all blocks.
    #[cycle(stmts)]
    fn mid<S: Sink>(
        &self,
        at: usize,
        site: usize,
        first: usize,
        n: usize,
        c: &mut Counters,
        sink: &mut S,
        marks: &mut [u32],
    ) -> Result<(), Refusal>
        requires cased { Cased 1 self.now.nodes.depth self.now.nodes.unit.now self.now.nodes.end at }
        requires counted { n ≡ length (list_of (cases_from self.now.nodes.depth self.now.nodes.unit.now at)) }
        ensures { Did S.emitted (code_of (λ cs. mid_code cs site first (number 4 self.now.nodes.unit.now at) (default_of 1 self.now.nodes.depth self.now.nodes.unit.now self.now.nodes.end (end_of self.now.nodes.unit.now (at + 5))) (span_of self.now.span)) (cases_from self.now.nodes.depth self.now.nodes.unit.now at)) c.old sink.old marks.old result c.new sink.new marks.new }
    {
        let list = end_of(self.nodes.unit, at + 5);
        let index = u32_inside(self.nodes.unit, at);
        let one = at + 9;
        let body = c.new_label(site, marks)?;
        c.new_labels(site, n, marks)?;
        let cases = self.up_to(list);
        cases.matchers(one, site, first, body, c, sink, marks)?;
        c.plain(site, Tag::SwitchDefault, 0, 0, sink);
        c.jump(site, Tag::Jump, body + n, sink);
        self.bodies(one, list, index, body, n, c, sink, marks)
    }

    // The matchers of all cases.
    fn matchers<S: Sink>(
        &self,
        at: usize,
        site: usize,
        first: usize,
        label: usize,
        c: &mut Counters,
        sink: &mut S,
        marks: &mut [u32],
    ) -> Result<(), Refusal>
        requires accepted { Accepted (arms_from self.now.nodes.depth self.now.nodes.unit.now self.now.nodes.end at) }
        requires at_le_end { (at ≤ self.now.nodes.end) × (label < 2 ^ 32) }
        ensures { Did S.emitted (code_of (λ cs. lower_matchers (cases_of cs) site first label) (arms_from self.now.nodes.depth self.now.nodes.unit.now self.now.nodes.end at)) c.old sink.old marks.old result c.new sink.new marks.new }
    {
        let mut i = at;
        let mut next = first;
        let mut body = label;
        while i < self.nodes.end {
            let second = end_of(self.nodes.unit, i);
            c.mark_label(next, marks);
            next = c.new_label(site, marks)?;
            c.jumps(site, Tag::SwitchLabel, next, body, sink);
            self.node(i, c, sink, marks)?;
            body += 1;
            i = end_of(self.nodes.unit, second);
        }
        c.mark_label(next, marks);
        Ok(())
    }

    // The blocks of all cases up to `list`, and before that of case `index` the default, which stands at `list`.
    #[cycle(stmts)]
    fn bodies<S: Sink>(
        &self,
        at: usize,
        list: usize,
        index: usize,
        label: usize,
        n: usize,
        c: &mut Counters,
        sink: &mut S,
        marks: &mut [u32],
    ) -> Result<(), Refusal>
        requires accepted { Accepted (arms_from self.now.nodes.depth self.now.nodes.unit.now list at) }
        requires default_here { DefaultHere 1 self.now.nodes.depth self.now.nodes.unit.now self.now.nodes.end list }
        requires at_le_end { (at ≤ list) × (list ≤ self.now.nodes.end) × (label < 2 ^ 32) × (n ≤ length self.now.nodes.unit.now) }
        ensures { Did S.emitted (code_of (λ cs. lower_bodies (cases_of cs) index label (label + n) (lower_default (default_of 1 self.now.nodes.depth self.now.nodes.unit.now self.now.nodes.end list) (span_of self.now.span)) (span_of self.now.span)) (arms_from self.now.nodes.depth self.now.nodes.unit.now list at)) c.old sink.old marks.old result c.new sink.new marks.new }
    {
        let mut i = at;
        let mut k = 0;
        while i < list {
            let second = end_of(self.nodes.unit, i);
            let third = end_of(self.nodes.unit, second);
            let here = is_same(k, index);
            c.mark_if(here, label + n, marks);
            self.default(list, here, c, sink, marks)?;
            c.mark_label(label + k, marks);
            self.up_to(third).stmts(second + 4, c, sink, marks)?;
            k += 1;
            i = third;
        }
        Ok(())
    }

    // InitArray.
    fn array<S: Sink>(
        &self,
        at: usize,
        c: &mut Counters,
        sink: &mut S,
        marks: &mut [u32],
    ) -> Result<(), Refusal>
        requires accepted { Accepted (parse_stmt self.now.nodes.depth self.now.nodes.unit.now self.now.nodes.end at) }
        requires at_value { get_or self.now.nodes.unit.now (at + 4) 0 ≡ 6 }
        ensures { Did S.emitted (stmt_code self.now.nodes.depth self.now.nodes.unit.now self.now.nodes.end at (span_of self.now.span)) c.old sink.old marks.old result c.new sink.new marks.new }
    {
        let below = self.inner(at);
        let first = at + 17;
        let local = u32_inside(self.nodes.unit, at + 5);
        let typ = u32_inside(self.nodes.unit, at + 9);
        if first < below.nodes.end {
            let n = below.nodes.count(first);
            c.plain(at, Tag::ArrayResize, 0, typ, sink);
            c.plain(at, Tag::Local, 0, local, sink);
            c.plain(at, Tag::U64Const, 0, n, sink);
            return below.elements(first, at, local, typ, c, sink, marks);
        }
        Ok(())
    }

    // The elements of the array at `site`.
    fn elements<S: Sink>(
        &self,
        at: usize,
        site: usize,
        local: usize,
        typ: usize,
        c: &mut Counters,
        sink: &mut S,
        marks: &mut [u32],
    ) -> Result<(), Refusal>
        requires accepted { Accepted (exprs_from self.now.nodes.depth self.now.nodes.unit.now self.now.nodes.end at) }
        requires at_le_end { at ≤ self.now.nodes.end }
        ensures { Did S.emitted (code_of (λ xs. lower_elements (exprs_of xs) site local typ 0) (exprs_from self.now.nodes.depth self.now.nodes.unit.now self.now.nodes.end at)) c.old sink.old marks.old result c.new sink.new marks.new }
    {
        let mut i = at;
        let mut k = 0;
        while i < self.nodes.end {
            c.element(site, local, typ, k, sink);
            self.node(i, c, sink, marks)?;
            i = end_of(self.nodes.unit, i);
            k += 1;
        }
        Ok(())
    }

    // Return.
    fn ret<S: Sink>(
        &self,
        at: usize,
        c: &mut Counters,
        sink: &mut S,
        marks: &mut [u32],
    ) -> Result<(), Refusal>
        requires accepted { Accepted (parse_stmt self.now.nodes.depth self.now.nodes.unit.now self.now.nodes.end at) }
        requires at_value { get_or self.now.nodes.unit.now (at + 4) 0 ≡ 10 }
        ensures { Did S.emitted (stmt_code self.now.nodes.depth self.now.nodes.unit.now self.now.nodes.end at (span_of self.now.span)) c.old sink.old marks.old result c.new sink.new marks.new }
    {
        let below = self.inner(at);
        if self.nodes.unit[at + 5] == 0 {
            c.returned(at, sink);
            return Ok(());
        }
        if self.span.returns == 0 {
            below.node(at + 6, c, sink, marks)?;
            c.returned(at, sink);
            return Ok(());
        }
        c.plain(at, Tag::Return, 0, 0, sink);
        below.node(at + 6, c, sink, marks)
    }
}
