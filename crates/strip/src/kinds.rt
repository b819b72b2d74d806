// The parts of each kind of node, in order.
ghost use Rattle.std.specs.Prelude.{◌≡◌, option_copied};
ghost use Rattle.std.proofs.Math.Option.{some};
ghost use Rattle.definitions.specs.Strip.{expr_parts, stmt_parts, parts_of};
ghost use Rattle.ir.specs.Kinds.{expr_code, stmt_code};
ghost use Rattle.strip.specs.Parts.{listed, maybe_listed, of_class, blocks_of};

use super::Part;
use ir::expr::ExprKind;
use ir::stmt::StmtKind;
use ir::{Class, Item};

// What runs of expressions and of statements hold.
pub const EXPRS: Item = Item::Node(Class::Expression);

pub const STMTS: Item = Item::Node(Class::Statement);

// A pool index, a line; a mark; an expression, a run of them, a block, a run of conditions (matchers) and blocks.
const INDEX: Part = Part::Free(4);

const LINE: Part = Part::Free(2);

const MARK: Part = Part::Small(2);

const VALUE: Part = Part::Value;

const VALUES: Part = Part::Run(EXPRS);

const BLOCK: Part = Part::Run(STMTS);

const ARMS: Part = Part::Run(Item::Arm);

const CODE: Part = Part::Small(34);

const FLAGS: Part = Part::Small(16);

// The parts of an expression.
#[tactic(auto, unfolding(definitions::specs::Strip::parts_of, definitions::specs::Strip::expr_parts))]
fn expr_parts(kind: ExprKind) -> &'static [Part]
    ensures { some (listed result.now) ≡ parts_of expr_parts (expr_code kind) }
{
    match kind {
        ExprKind::Nop => &[],
        ExprKind::Const => &[Part::Constant],
        ExprKind::Null => &[MARK],
        ExprKind::NewInstance => &[INDEX],
        ExprKind::Construct => &[INDEX, VALUES],
        ExprKind::Assign => &[VALUE, VALUE],
        ExprKind::Field => &[Part::Small(3), INDEX, VALUE],
        ExprKind::Index => &[MARK, INDEX, VALUE, VALUE],
        ExprKind::Conditional => &[VALUE, VALUE, VALUE],
        ExprKind::DynCast => &[INDEX, MARK, VALUE],
        ExprKind::Local => &[Part::Small(4), INDEX],
        ExprKind::IntrinsicCall => &[CODE, MARK, Part::Kept(1), INDEX, VALUES],
        ExprKind::FreeCall | ExprKind::StaticCall => {
            &[INDEX, INDEX, LINE, FLAGS, Part::Params, Part::Arguments]
        }
        ExprKind::InstanceCall => &[
            MARK,
            VALUE,
            INDEX,
            INDEX,
            LINE,
            FLAGS,
            Part::Params,
            Part::Arguments,
        ],
        ExprKind::ClosureCall => &[VALUE, INDEX, LINE, VALUES],
    }
}

// The parts of a statement.
#[tactic(auto, unfolding(definitions::specs::Strip::parts_of, definitions::specs::Strip::stmt_parts))]
fn stmt_parts(kind: StmtKind) -> &'static [Part]
    ensures { some (listed result.now) ≡ parts_of stmt_parts (stmt_code kind) }
{
    match kind {
        StmtKind::Expr => &[VALUE],
        StmtKind::Block => &[BLOCK],
        StmtKind::While => &[VALUE, BLOCK],
        StmtKind::Branches => &[ARMS, MARK, Part::BlockIf],
        StmtKind::Switch => &[INDEX, VALUE, Part::Kept(4), MARK, ARMS, Part::BlockIf],
        StmtKind::InitArray => &[INDEX, INDEX, VALUES],
        StmtKind::InitDefault => &[INDEX, Part::Small(23), INDEX],
        StmtKind::Break | StmtKind::Continue => &[],
        StmtKind::Return => &[MARK, Part::ValueIf],
    }
}

// The parts of a node of a class, if its kind has this number.
#[tactic(auto, using(crate::proofs::PartLaws::no_expr, crate::proofs::PartLaws::no_stmt))]
pub fn parts_of(class: Class, code: u8) -> Option<&'static [Part]>
    ensures { maybe_listed (option_copied result) ≡ parts_of (of_class class) code }
{
    match class {
        Class::Statement => Some(stmt_parts(StmtKind::try_from(code).ok()?)),
        Class::Expression => Some(expr_parts(ExprKind::try_from(code).ok()?)),
    }
}

// The depth that is left for the statements in a node of a class, which an expression has none of.
pub fn blocks_in(class: Class, depth: usize) -> usize
    ensures { result ≡ blocks_of class depth }
{
    match class {
        Class::Statement => depth,
        Class::Expression => 0,
    }
}
