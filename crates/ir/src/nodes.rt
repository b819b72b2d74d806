// Nodes, runs and what a kind asks: one cycle of calls. Every child goes through `node`, where the depth that is left falls.
// What only hands on to `list` is always inlined, so that a level of nested blocks is two calls, `node` and `list`: deep in a nest the
// processor foresees no return, and each call more costs one.
use super::expr::ExprKind;
use super::fields::Part;
use super::stmt::StmtKind;
use super::{Class, Item};
use instr::refusals::{Reason, Refusal};

impl Part<'_> {
    ghost use Rattle.std.specs.Prelude.{◌≡◌, length};
    ghost use Rattle.definitions.specs.Read.{run, filling, block_if, parse_expr, parse_stmt};
    ghost use Rattle.ir.specs.Class.{node_of, kind_of, item_of};
    ghost use Rattle.ir.specs.Verdict.{end_answer, answer, map_value, no_value, mark_of, calling};
    ghost use Rattle.ir.specs.declared.Class.TheVariants.{Statement, Expression};

    // A node of a class, of which this part is the holder: its depth, its length and kind, what its kind asks, its end.
    #[tactic(auto, using(crate::proofs::NodeLaws::deep, crate::proofs::NodeLaws::node_steps, crate::proofs::NodeLaws::statement, crate::proofs::NodeLaws::expression), unfolding(definitions::specs::Answer::bind))]
    #[cycle(nodes)]
    fn node(&self, at: usize, depth: usize, class: Class) -> Result<usize, Refusal>
        ensures { end_answer result ≡ no_value (node_of class depth self.now.unit.now self.now.end at) }
    {
        if depth == 0 {
            return Err(Refusal::at(Reason::Depth, at));
        }
        let (node, start) = self.part(at)?;
        let (code, fields) = node.byte(start)?;
        let last = match class {
            Class::Statement => node.stmt_kind(code, fields, depth - 1)?,
            Class::Expression => node.expr_kind(code, fields, depth - 1)?,
        };
        node.close(last)
    }

    // What the statement's kind asks, with depth for the nodes in it.
    #[tactic(auto, unfolding(definitions::specs::Answer::bind, crate::proofs::Laws::and_then, definitions::specs::Read::give, definitions::specs::Read::stmt_body, definitions::specs::Read::stmt_kinds, definitions::specs::Read::pick, definitions::specs::Read::unknown_kind, definitions::specs::Read::as_expr, definitions::specs::Read::as_block, definitions::specs::Read::as_while, definitions::specs::Read::as_branches, definitions::specs::Read::as_switch, definitions::specs::Read::as_init_array, definitions::specs::Read::as_break, definitions::specs::Read::as_continue, definitions::specs::Read::as_return, definitions::specs::Read::return_if))]
    #[cycle(nodes)]
    fn stmt_kind(&self, code: u8, at: usize, depth: usize) -> Result<usize, Refusal>
        ensures { end_answer result ≡ no_value (kind_of Statement depth self.now.unit.now code self.now.place self.now.end at) }
    {
        let Ok(kind) = StmtKind::try_from(code) else {
            return Err(Refusal::at(Reason::Value, self.place));
        };
        match kind {
            StmtKind::Expr => self.expr(at, depth),
            StmtKind::Block => self.block(at, depth),
            StmtKind::While => {
                let test = self.expr(at, depth)?;
                self.block(test, depth)
            }
            StmtKind::Branches => {
                let arms = self.run(at, depth, Item::Arm)?;
                let (mark, default) = self.mark(arms)?;
                self.default(default, depth, mark)
            }
            StmtKind::Switch => {
                let typ = self.skip(at, 4)?;
                let on = self.expr(typ, depth)?;
                let index = self.skip(on, 4)?;
                let (mark, cases) = self.mark(index)?;
                let default = self.run(cases, depth, Item::Arm)?;
                self.default(default, depth, mark)
            }
            StmtKind::InitArray => {
                let local = self.skip(at, 4)?;
                let typ = self.skip(local, 4)?;
                self.exprs(typ, depth)
            }
            StmtKind::InitDefault => self.init_default(at),
            StmtKind::Break => Ok(at),
            StmtKind::Continue => Ok(at),
            StmtKind::Return => {
                let (mark, value) = self.mark(at)?;
                if mark {
                    return self.expr(value, depth);
                }
                Ok(value)
            }
        }
    }

    // What the expression's kind asks, with depth for the nodes in it.
    #[tactic(auto, unfolding(definitions::specs::Answer::bind, crate::proofs::Laws::and_then, definitions::specs::Read::give, definitions::specs::Read::expr_body, definitions::specs::Read::expr_kinds, definitions::specs::Read::pick, definitions::specs::Read::unknown_kind, definitions::specs::Read::as_nop, definitions::specs::Read::as_null, definitions::specs::Read::as_new_instance, definitions::specs::Read::as_construct, definitions::specs::Read::as_assign, definitions::specs::Read::as_field, definitions::specs::Read::as_index, definitions::specs::Read::as_conditional, definitions::specs::Read::as_dyn_cast, definitions::specs::Read::as_intrinsic, definitions::specs::Read::as_free_call, definitions::specs::Read::as_static_call, definitions::specs::Read::as_instance_call, definitions::specs::Read::as_closure_call, crate::specs::Verdict::calling))]
    #[cycle(nodes)]
    fn expr_kind(&self, code: u8, at: usize, depth: usize) -> Result<usize, Refusal>
        ensures { end_answer result ≡ no_value (kind_of Expression depth self.now.unit.now code self.now.place self.now.end at) }
    {
        let Ok(kind) = ExprKind::try_from(code) else {
            return Err(Refusal::at(Reason::Value, self.place));
        };
        match kind {
            ExprKind::Nop => Ok(at),
            ExprKind::Const => self.constant(at),
            ExprKind::Null => self.skip_below(at, 2),
            ExprKind::NewInstance => self.skip(at, 4),
            ExprKind::Construct => {
                let class = self.skip(at, 4)?;
                self.exprs(class, depth)
            }
            ExprKind::Assign => {
                let place = self.expr(at, depth)?;
                self.expr(place, depth)
            }
            ExprKind::Field => {
                let form = self.skip_below(at, 3)?;
                let field = self.skip(form, 4)?;
                self.expr(field, depth)
            }
            ExprKind::Index => {
                let dynamic = self.skip_below(at, 2)?;
                let typ = self.skip(dynamic, 4)?;
                let array = self.expr(typ, depth)?;
                self.expr(array, depth)
            }
            ExprKind::Conditional => {
                let test = self.expr(at, depth)?;
                let then = self.expr(test, depth)?;
                self.expr(then, depth)
            }
            ExprKind::DynCast => {
                let class = self.skip(at, 4)?;
                let weak = self.skip_below(class, 2)?;
                self.expr(weak, depth)
            }
            ExprKind::Local => self.local(at),
            ExprKind::IntrinsicCall => {
                let code = self.skip_below(at, 34)?;
                let mark = self.skip_below(code, 2)?;
                let types = self.skip(mark, 1)?;
                let index = self.skip(types, 4)?;
                self.exprs(index, depth)
            }
            ExprKind::FreeCall => self.call(at, depth),
            ExprKind::StaticCall => self.call(at, depth),
            ExprKind::InstanceCall => {
                let weak = self.skip_below(at, 2)?;
                let on = self.expr(weak, depth)?;
                self.call(on, depth)
            }
            ExprKind::ClosureCall => {
                let closure = self.expr(at, depth)?;
                let name = self.skip(closure, 4)?;
                let line = self.skip(name, 2)?;
                self.exprs(line, depth)
            }
        }
    }

    // A function and the arguments that it is called with.
    #[tactic(auto, unfolding(definitions::specs::Answer::bind, crate::proofs::Laws::and_then, definitions::specs::Read::arguments, definitions::specs::Read::ended, crate::specs::Verdict::closing, crate::specs::Verdict::calling))]
    #[cycle(nodes)]
    fn call(&self, at: usize, depth: usize) -> Result<usize, Refusal>
        ensures { end_answer result ≡ no_value (calling self.now.unit.now (parse_expr depth self.now.unit.now) self.now.place self.now.end at) }
    {
        let (params, args) = self.callee(at)?;
        let (count, last) = self.list(args, depth, Item::Node(Class::Expression))?;
        self.close_call(last, usize::from(params), count)
    }

    // An expression.
    #[cycle(nodes)]
    fn expr(&self, at: usize, depth: usize) -> Result<usize, Refusal>
        ensures { end_answer result ≡ no_value (parse_expr depth self.now.unit.now self.now.end at) }
    {
        self.node(at, depth, Class::Expression)
    }

    // Expressions, as a run.
    #[inline(always)]
    #[cycle(nodes)]
    fn exprs(&self, at: usize, depth: usize) -> Result<usize, Refusal>
        ensures { end_answer result ≡ no_value (run self.now.unit.now self.now.end (parse_expr depth self.now.unit.now) at) }
    {
        self.run(at, depth, Item::Node(Class::Expression))
    }

    // Statements, as a run.
    #[inline(always)]
    #[cycle(nodes)]
    pub fn block(&self, at: usize, depth: usize) -> Result<usize, Refusal>
        ensures { end_answer result ≡ no_value (run self.now.unit.now self.now.end (parse_stmt depth self.now.unit.now) at) }
    {
        self.run(at, depth, Item::Node(Class::Statement))
    }

    // A run: its length, then items that fill it.
    #[inline(always)]
    #[cycle(nodes)]
    fn run(&self, at: usize, depth: usize, item: Item) -> Result<usize, Refusal>
        ensures { end_answer result ≡ no_value (run self.now.unit.now self.now.end (item_of item depth self.now.unit.now) at) }
    {
        let (_count, next) = self.list(at, depth, item)?;
        Ok(next)
    }

    // The same, with the number of items.
    #[tactic(auto, unfolding(definitions::specs::Answer::bind, crate::proofs::Laws::and_then, definitions::specs::Read::run))]
    #[cycle(nodes)]
    fn list(&self, at: usize, depth: usize, item: Item) -> Result<(usize, usize), Refusal>
        ensures { answer result ≡ map_value length (run self.now.unit.now self.now.end (item_of item depth self.now.unit.now) at) }
    {
        let (run, first) = self.part(at)?;
        run.fill(first, depth, item)
    }

    // Items from `first` up to the end of this run, and how many.
    #[cycle(nodes)]
    fn fill(&self, first: usize, depth: usize, item: Item) -> Result<(usize, usize), Refusal>
        ensures { answer result ≡ map_value length (filling (item_of item depth self.now.unit.now) self.now.end first) }
    {
        let mut next = first;
        let mut count = 0;
        while next < self.end {
            next = self.item(next, depth, item)?;
            count += 1;
        }
        Ok((count, self.end))
    }

    // An item of a run: a node, or an arm, which is a condition (a matcher) and a block.
    #[tactic(auto, using(crate::proofs::NodeLaws::arm_item), unfolding(definitions::specs::Answer::bind, crate::proofs::Laws::and_then, definitions::specs::Read::give, definitions::specs::Read::arm))]
    #[cycle(nodes)]
    fn item(&self, at: usize, depth: usize, item: Item) -> Result<usize, Refusal>
        ensures { end_answer result ≡ no_value (item_of item depth self.now.unit.now self.now.end at) }
    {
        match item {
            Item::Node(class) => self.node(at, depth, class),
            Item::Arm => {
                let test = self.expr(at, depth)?;
                self.block(test, depth)
            }
        }
    }

    // The default block, where its mark says that there is one.
    #[tactic(auto, unfolding(definitions::specs::Answer::bind, crate::proofs::Laws::and_then, definitions::specs::Read::give, definitions::specs::Read::block_if))]
    #[cycle(nodes)]
    fn default(&self, at: usize, depth: usize, mark: bool) -> Result<usize, Refusal>
        ensures { end_answer result ≡ no_value (block_if (mark_of mark) (run self.now.unit.now self.now.end (parse_stmt depth self.now.unit.now)) at) }
    {
        if mark {
            return self.block(at, depth);
        }
        Ok(at)
    }
}
