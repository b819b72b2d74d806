// Statements and blocks: one cycle of calls, in which the depth that is left falls.
ghost use Rattle.std.specs.Prelude.{◌≡◌, ◌<◌};
ghost use Rattle.scan.specs.Scanned.{default_count};

use super::exprs::ITEMS;
use super::fields::{Holder, Left};
use instr::numbers::u32_inside;
use ir::stmt::StmtKind;

// What a statement stands in, as far as break and continue ask: a switch is one that is in no loop.
#[derive(Clone, Copy, Debug, PartialEq, Eq)]
pub(crate) enum Inside {
    Nothing,
    Switch,
    Loop,
}

// What is around a statement: the unit's return byte, a number as in the definitions, and what it stands in.
#[derive(Clone, Copy, Debug, PartialEq, Eq)]
pub(crate) struct Around {
    pub(crate) returns: usize,
    pub(crate) inside: Inside,
}

impl Inside {
    ghost use Rattle.std.specs.Prelude.{◌≡◌, nat_lt};
    ghost use Rattle.scan.specs.Scanned.{number_of, within};

    // Whether break has somewhere to go.
    fn takes_break(self) -> bool
        ensures { result ≡ nat_lt 0 (number_of self) }
    {
        self != Inside::Nothing
    }

    // Whether continue has.
    fn takes_continue(self) -> bool
        ensures { result ≡ nat_lt 1 (number_of self) }
    {
        self == Inside::Loop
    }

    // In a switch, break has somewhere to go.
    #[tactic(auto, unfolding(crate::specs::Scanned::within))]
    fn in_switch(self) -> Self
        ensures { number_of result ≡ within (number_of self) }
    {
        match self {
            Inside::Nothing => Inside::Switch,
            Inside::Switch => Inside::Switch,
            Inside::Loop => Inside::Loop,
        }
    }
}

impl Left {
    ghost use Rattle.std.specs.Prelude.{◌≡◌, true, cond, ◌+◌, ◌≤◌, ◌<◌, ◌^◌, IfSome};
    ghost use Rattle.scan.specs.Scanned.{Paid};

    // Break or continue, where it may stand.
    fn pay_jump(&mut self, stands: bool) -> Option<()>
        ensures { IfSome result (λ _. («stands» ≡ true) × Paid self.old self.new 1 0) }
    {
        if !stands {
            return None;
        }
        self.pay_records(1)
    }

    // What n cases take: a record and a label each; a mid default's Jump, its body and theirs, or else a body for each group.
    // They are taken one by one: with `pay` the compiler holds less of a block's loop in registers, and a loop's statements take longer.
    fn pay_cases(&mut self, n: usize, groups: usize, mid: bool) -> Option<()>
        requires { (groups ≤ n) × (n < 2 ^ 63) }
        ensures { IfSome result (λ _. Paid self.old self.new (n + cond «mid» 1 0) (n + cond «mid» (n + 1) groups)) }
    {
        if mid {
            self.pay_records(n + 1)?;
            return self.pay_labels(2 * n + 1);
        }
        self.pay_records(n)?;
        self.pay_labels(n + groups)
    }
}

// How many records an InitDefault emits, by its byte.
fn default_count(byte: u8) -> usize
    requires { byte < 23 }
    ensures { result ≡ default_count byte }
{
    match byte {
        0 => 0,
        1 => 2,
        4 => 4,
        22 => 2,
        _ => 3,
    }
}

impl Holder<'_> {
    ghost use Rattle.std.specs.Prelude.{◌≡◌, ℕ, ◌+◌, ◌≤◌, ◌<◌, get_or, IfSome};
    ghost use Rattle.ir.specs.Kinds.{stmt_code};
    ghost use Rattle.scan.specs.Scanned.{BlockAt, StatementAt, StmtAt, ArmsAt, CasesAt, Paid, default_count, number_of};

    // A block: its length and statements that fill it.
    #[tactic(auto, using(crate::proofs::StmtLoops::stmts_none, crate::proofs::StmtLoops::stmts_one, crate::proofs::StmtLoops::stmts_all))]
    #[cycle(stmts)]
    pub(crate) fn block(
        &self,
        at: usize,
        depth: usize,
        around: Around,
        left: &mut Left,
    ) -> Option<usize>
        requires { at ≤ self.now.end }
        ensures { IfSome result (λ r. BlockAt depth self.now.unit.now self.now.end at r around.returns (number_of around.inside) left.old left.new) }
    {
        let block = Holder {
            unit: self.unit,
            end: self.span(at)?,
        };
        let mut next = at + 4;
        while next < block.end {
            next = block.stmt(next, depth, around, left)?;
        }
        Some(block.end)
    }

    // A statement.
    #[tactic(auto, using(std::proofs::lemmas::Option::IfSome_then, crate::proofs::StmtFound::stmt_found))]
    #[cycle(stmts)]
    fn stmt(&self, at: usize, depth: usize, around: Around, left: &mut Left) -> Option<usize>
        requires { at ≤ self.now.end }
        ensures { IfSome result (λ r. StatementAt depth self.now.unit.now self.now.end at r around.returns (number_of around.inside) left.old left.new) }
    {
        let node = Holder {
            unit: self.unit,
            end: self.node(at, depth)?,
        };
        let Ok(kind) = StmtKind::try_from(self.unit[at + 4]) else {
            return None;
        };
        let last = node.stmt_kind(kind, at, depth - 1, around, left)?;
        node.close(last)
    }

    // What the statement's kind asks, of this node, with depth for the nodes in it.
    #[tactic(auto, using(std::proofs::lemmas::Option::IfSome_then, ir::proofs::KindLaws::stmt_is, crate::proofs::StmtFound::expr_stmt_found, crate::proofs::StmtFound::block_found, crate::proofs::StmtFound::default_found, crate::proofs::StmtFound::break_found, crate::proofs::StmtFound::continue_found))]
    #[cycle(stmts)]
    fn stmt_kind(
        &self,
        kind: StmtKind,
        at: usize,
        depth: usize,
        around: Around,
        left: &mut Left,
    ) -> Option<usize>
        requires { (at + 5 ≤ self.now.end) × (stmt_code kind ≡ get_or self.now.unit.now (at + 4) 0) }
        ensures { IfSome result (λ r. StmtAt depth self.now.unit.now self.now.end at r around.returns (number_of around.inside) left.old left.new) }
    {
        let body = at + 5;
        match kind {
            StmtKind::Expr => self.expr(body, depth, left),
            StmtKind::Block => self.block(body, depth, around, left),
            StmtKind::While => self.while_loop(at, depth, around.returns, left),
            StmtKind::Branches => self.branches(at, depth, around, left),
            StmtKind::Switch => self.switch(at, depth, around, left),
            StmtKind::InitArray => self.init_array(at, depth, left),
            StmtKind::InitDefault => self.init_default(at, left),
            StmtKind::Break => {
                left.pay_jump(around.inside.takes_break())?;
                Some(body)
            }
            StmtKind::Continue => {
                left.pay_jump(around.inside.takes_continue())?;
                Some(body)
            }
            StmtKind::Return => self.returned(at, depth, around.returns, left),
        }
    }

    // InitDefault: so many records as its byte says.
    fn init_default(&self, at: usize, left: &mut Left) -> Option<usize>
        requires { at + 5 ≤ self.now.end }
        ensures { IfSome result (λ r. (r ≡ at + 5 + 9) × (r ≤ self.now.end) × (get_or self.now.unit.now (at + 5 + 4) 0 < 23) × Paid left.old left.new (default_count (get_or self.now.unit.now (at + 5 + 4) 0)) 0) }
    {
        let next = self.fields(at + 5, 9, 4, 23)?;
        left.pay_records(default_count(self.unit[at + 9]))?;
        Some(next)
    }

    // While: JumpIfFalse and Jump, and two labels.
    #[tactic(auto, using(std::proofs::lemmas::Option::IfSome_then, crate::proofs::StmtFound::while_found))]
    #[cycle(stmts)]
    fn while_loop(&self, at: usize, depth: usize, returns: usize, left: &mut Left) -> Option<usize>
        requires { (at + 5 ≤ self.now.end) × (get_or self.now.unit.now (at + 4) 0 ≡ 3) }
        ensures { IfSome result (λ r. StmtAt depth self.now.unit.now self.now.end at r returns 0 left.old left.new) }
    {
        left.pay(2, 2)?;
        let body = self.expr(at + 5, depth, left)?;
        let around = Around {
            returns,
            inside: Inside::Loop,
        };
        self.block(body, depth, around, left)
    }

    // InitArray: three records, and four for each element; none for no element.
    fn init_array(&self, at: usize, depth: usize, left: &mut Left) -> Option<usize>
        requires { (at + 5 ≤ self.now.end) × (get_or self.now.unit.now (at + 4) 0 ≡ 6) }
        ensures { IfSome result (λ r. (returns inside : ℕ) → StmtAt depth self.now.unit.now self.now.end at r returns inside left.old left.new) }
    {
        let elements = self.skip(at + 5, 8)?;
        let mut items = ITEMS;
        let next = self.run(elements, depth, &mut items, left)?;
        if items < ITEMS {
            left.pay_records(3 + 4 * (ITEMS - items))?;
        }
        Some(next)
    }

    // Return: two records where nothing is returned, or where the unit returns nothing.
    fn returned(&self, at: usize, depth: usize, returns: usize, left: &mut Left) -> Option<usize>
        requires { (at + 5 ≤ self.now.end) × (get_or self.now.unit.now (at + 4) 0 ≡ 10) }
        ensures { IfSome result (λ r. StmtAt depth self.now.unit.now self.now.end at r returns 0 left.old left.new) }
    {
        let value = self.fields(at + 5, 1, 0, 2)?;
        if self.unit[at + 5] == 0 {
            left.pay_records(2)?;
            return Some(value);
        }
        let own = if returns == 0 { 2 } else { 1 };
        left.pay_records(own)?;
        self.expr(value, depth, left)
    }

    // Branches: two labels, and two records and a label for each.
    #[tactic(auto, using(std::proofs::lemmas::Option::IfSome_then, crate::proofs::StmtFound::branches_found, crate::proofs::StmtFound::branches_found_with))]
    #[cycle(stmts)]
    fn branches(&self, at: usize, depth: usize, around: Around, left: &mut Left) -> Option<usize>
        requires { (at + 5 ≤ self.now.end) × (get_or self.now.unit.now (at + 4) 0 ≡ 4) }
        ensures { IfSome result (λ r. StmtAt depth self.now.unit.now self.now.end at r around.returns (number_of around.inside) left.old left.new) }
    {
        left.pay_labels(2)?;
        let mark = self.arms(at + 5, depth, around, left)?;
        let default = self.fields(mark, 1, 0, 2)?;
        if self.unit[mark] == 0 {
            return Some(default);
        }
        self.block(default, depth, around, left)
    }

    // The run of branches.
    #[tactic(auto, using(crate::proofs::StmtLoops::arms_none, crate::proofs::StmtLoops::arms_one, crate::proofs::StmtLoops::arms_all))]
    #[cycle(stmts)]
    fn arms(&self, at: usize, depth: usize, around: Around, left: &mut Left) -> Option<usize>
        requires { at ≤ self.now.end }
        ensures { IfSome result (λ r. ArmsAt depth self.now.unit.now self.now.end at r around.returns (number_of around.inside) left.old left.new) }
    {
        let run = Holder {
            unit: self.unit,
            end: self.span(at)?,
        };
        let mut next = at + 4;
        while next < run.end {
            left.pay(2, 1)?;
            let test = run.expr(next, depth, left)?;
            next = run.block(test, depth, around, left)?;
        }
        Some(run.end)
    }

    // Switch: the Switch and two labels, its cases, its default.
    #[tactic(auto, using(std::proofs::lemmas::Option::IfSome_then, crate::proofs::StmtFound::switch_none, crate::proofs::StmtFound::switch_some))]
    #[cycle(stmts)]
    fn switch(&self, at: usize, depth: usize, around: Around, left: &mut Left) -> Option<usize>
        requires { (at + 5 ≤ self.now.end) × (get_or self.now.unit.now (at + 4) 0 ≡ 5) }
        ensures { IfSome result (λ r. StmtAt depth self.now.unit.now self.now.end at r around.returns (number_of around.inside) left.old left.new) }
    {
        let on = self.skip(at + 5, 4)?;
        left.pay(1, 2)?;
        let index = self.expr(on, depth, left)?;
        let cases = self.fields(index, 5, 4, 2)?;
        let mark = usize::from(self.unit[index + 4]);
        let within = Around {
            returns: around.returns,
            inside: around.inside.in_switch(),
        };
        let default = self.cases(
            cases,
            depth,
            within,
            u32_inside(self.unit, index),
            mark,
            left,
        )?;
        if mark == 0 {
            return Some(default);
        }
        left.pay_records(1)?;
        self.block(default, depth, within, left)
    }

    // The run of cases: a record each, and the labels of either layout. A mid default has a Jump.
    #[tactic(auto, using(crate::proofs::StmtLoops::cased_none))]
    #[cycle(stmts)]
    fn cases(
        &self,
        at: usize,
        depth: usize,
        around: Around,
        index: usize,
        mark: usize,
        left: &mut Left,
    ) -> Option<usize>
        requires { at ≤ self.now.end }
        ensures { IfSome result (λ r. CasesAt depth self.now.unit.now self.now.end at r around.returns (number_of around.inside) index mark left.old left.new) }
    {
        let run = Holder {
            unit: self.unit,
            end: self.span(at)?,
        };
        let mut next = at + 4;
        let mut n = 0;
        let mut groups = 0;
        while next < run.end {
            let block = run.expr(next, depth, left)?;
            next = run.block(block, depth, around, left)?;
            n += 1;
            if block + 4 < next || next == run.end {
                groups += 1;
            }
        }
        left.pay_cases(n, groups, mark == 1 && index < n)?;
        Some(run.end)
    }
}
