// Nodes, their parts and runs: one cycle of calls. Every child goes through `node`, where the depth that is left falls.
ghost use Rattle.std.specs.Prelude.{◌≡◌, true};
ghost use Rattle.definitions.specs.Read.{front_good};
ghost use Rattle.definitions.specs.Strip.{strip};

use super::Part;
use super::fields::{Holder, Passed};
use super::kinds::{EXPRS, STMTS, blocks_in, parts_of};
use ir::{Class, Item};

impl Holder<'_> {
    ghost use Rattle.std.specs.Prelude.{◌+◌, ◌-◌, suc, ◌≤◌, length};
    ghost use Rattle.definitions.specs.Strip.{◌and◌, strip_items, strip_run};
    ghost use Rattle.strip.specs.Parts.{listed, node_of, item_of, depth_of};
    ghost use Rattle.strip.specs.Passing.{Copied, Did, Within, Parted, parts_in};

    // How many nodes of a class may stand one in another.
    fn depth_of(&self, class: Class) -> usize
        ensures { result ≡ depth_of class self.now.values self.now.blocks }
    {
        match class {
            Class::Statement => self.blocks,
            Class::Expression => self.values,
        }
    }

    // A node of a class in this holder: its length, its kind, its parts.
    #[cycle(nodes)]
    fn node(&self, out: &mut [u8], from: Passed, class: Class) -> Option<Passed>
        requires { Copied self.now.unit.now from.at out.old }
        ensures { Did self.now.unit.now from.at out.old (λ next. node_of class (depth_of class self.now.values self.now.blocks) self.now.unit.now self.now.end and next from.last) result out.new × Within (from.at + 1) self.now.end result }
    {
        let depth = self.depth_of(class).checked_sub(1)?;
        let (first, end) = self.span(from.at)?;
        let node = Holder {
            unit: self.unit,
            end,
            values: depth,
            blocks: blocks_in(class, depth),
        };
        let body = node.keep(Passed { at: first, ..from }, 1)?;
        let parts = parts_of(class, self.unit[first])?;
        node.parts(out, body, parts)
    }

    // The parts of a node, which is this holder, and its end.
    #[cycle(nodes)]
    fn parts(&self, out: &mut [u8], from: Passed, parts: &[Part]) -> Option<Passed>
        requires { Copied self.now.unit.now from.at out.old }
        ensures { Did self.now.unit.now from.at out.old (λ next. parts_in self.now.values self.now.blocks self.now.unit.now self.now.end (listed parts.now) 0 and next from.last) result out.new × Within self.now.end self.now.end result }
    {
        let mut next = Passed { last: 0, ..from };
        for &part in parts {
            next = self.part(out, next, part)?;
        }
        let at = next.at;
        self.close(Passed { at, ..from })
    }

    // A part of a node, where a mark or a count was passed last.
    #[cycle(nodes)]
    fn part(&self, out: &mut [u8], from: Passed, part: Part) -> Option<Passed>
        requires { Copied self.now.unit.now from.at out.old }
        ensures { Parted self.now.values self.now.blocks self.now.unit.now self.now.end part from.at from.last out.old result out.new }
    {
        match part {
            Part::Free(w) => self.blank(out, from, w, 0),
            Part::Kept(w) => self.keep(from, w),
            Part::Small(bound) => self.below(from.at, bound),
            Part::Constant => self.constant(out, from),
            Part::Params => self.params(from.at),
            Part::Value => self.node(out, from, Class::Expression),
            Part::Run(item) => {
                let at = self.run(out, from.at, item)?.at;
                Some(Passed { at, ..from })
            }
            Part::Arguments => {
                let args = self.run(out, from.at, EXPRS)?;
                self.close_call(args, from.last)
            }
            Part::ValueIf => {
                if from.last == 0 {
                    return Some(from);
                }
                self.node(out, from, Class::Expression)
            }
            Part::BlockIf => {
                if from.last == 0 {
                    return Some(from);
                }
                let at = self.run(out, from.at, STMTS)?.at;
                Some(Passed { at, ..from })
            }
        }
    }

    // A run in this holder: its length, then items that fill it. Their count is passed last.
    #[cycle(nodes)]
    fn run(&self, out: &mut [u8], at: usize, item: Item) -> Option<Passed>
        requires { Copied self.now.unit.now at out.old }
        ensures { Did self.now.unit.now at out.old (strip_run self.now.unit.now self.now.end (item_of item self.now.values self.now.blocks self.now.unit.now)) result out.new × Within (at + 1) self.now.end result }
    {
        let (first, end) = self.span(at)?;
        let mut run = *self;
        run.end = end;
        run.items(out, first, item)
    }

    // Items from `at` up to the end of a run, which is this holder. Their count is passed last.
    #[cycle(nodes)]
    fn items(&self, out: &mut [u8], at: usize, item: Item) -> Option<Passed>
        requires copied { Copied self.now.unit.now at out.old }
        requires low { at ≤ self.now.end }
        ensures { Did self.now.unit.now at out.old (strip_items self.now.unit.now (item_of item self.now.values self.now.blocks self.now.unit.now self.now.end) (suc (self.now.end - at)) self.now.end 0) result out.new × Within at self.now.end result }
    {
        let mut next = Passed { at, last: 0 };
        while next.at < self.end {
            next.at = self.item(out, next, item)?.at;
            next.last += 1;
        }
        let at = self.end;
        Some(Passed { at, ..next })
    }

    // An item of a run: a node, or an arm, which is a condition (a matcher) and a block.
    #[cycle(nodes)]
    fn item(&self, out: &mut [u8], from: Passed, item: Item) -> Option<Passed>
        requires { Copied self.now.unit.now from.at out.old }
        ensures { Did self.now.unit.now from.at out.old (λ next. item_of item self.now.values self.now.blocks self.now.unit.now self.now.end and next from.last) result out.new × Within (from.at + 1) self.now.end result }
    {
        match item {
            Item::Node(class) => self.node(out, from, class),
            Item::Arm => {
                let body = self.node(out, from, Class::Expression)?.at;
                let at = self.run(out, body, STMTS)?.at;
                Some(Passed { at, ..from })
            }
        }
    }
}

// The unit's one block, in a buffer that has the unit.
#[tactic(auto, using(crate::proofs::UnitLaws::all_copied, crate::proofs::UnitLaws::a_unit))]
pub fn strip_unit(unit: &[u8], out: &mut [u8])
    requires { (out.old ≡ unit.now) × (front_good unit.now ≡ true) }
    ensures { out.new ≡ strip unit.now }
{
    let whole = Holder {
        unit,
        end: unit.len(),
        values: ir::DEPTH_LIMIT,
        blocks: ir::DEPTH_LIMIT,
    };
    whole.run(out, 6, STMTS);
}
