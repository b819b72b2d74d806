// Reads a unit without building its tree: whether the parser of `definitions` takes it, and if not, the parser's refusal.
#![tactic(auto)]

ghost use Rattle.std.specs.Prelude.{◌≡◌};
ghost use Rattle.definitions.specs.Read.{front_good, parse_unit};
ghost use Rattle.ir.specs.Verdict.{map_value, unit_answer};

pub mod args;
pub mod expr;
mod fields;
mod nodes;
pub mod stmt;

use fields::Part;
use instr::numbers::u32_at;
use instr::refusals::{Reason, Refusal};
use std::error::Error;
use std::fmt;

// The most bytes of a unit, and the most nodes one in another.
pub const UNIT_LIMIT: usize = 1048576;

pub const DEPTH_LIMIT: usize = 200;

// A unit's return byte, a number as in the definitions' tree, and where its block ends.
#[derive(Clone, Copy, Debug, PartialEq, Eq)]
pub struct ReadUnit {
    pub returns: usize,
    pub end: usize,
}

// A byte that is the number of no kind.
#[derive(Clone, Copy, Debug, PartialEq, Eq)]
pub struct UnknownKind(pub u8);

impl fmt::Display for UnknownKind {
    fn fmt<W: fmt::Write>(&self, f: &mut fmt::Formatter<W>) -> fmt::Result {
        write!(f, "no kind has number {}", self.0)
    }
}

impl Error for UnknownKind {}

// The classes of nodes.
#[derive(Clone, Copy, Debug, PartialEq, Eq)]
pub enum Class {
    Statement,
    Expression,
}

// What a run holds: nodes of a class, or conditions (matchers) with a block each.
#[derive(Clone, Copy, Debug, PartialEq, Eq)]
pub enum Item {
    Node(Class),
    Arm,
}

// The head of an argument: an AsRef call, with where its arguments begin and end; one that is not a prvalue; any other.
#[derive(Clone, Copy, Debug, PartialEq, Eq)]
pub enum Arg {
    AsRef { first: usize, stop: usize },
    Place,
    Value,
}

// The front: version 1, the length of what follows, a return byte of 0 or 1; and the whole is not too long.
#[tactic(auto, unfolding(definitions::specs::Read::front_good))]
pub fn front_good(unit: &[u8]) -> bool
    ensures { result ≡ front_good unit.now }
{
    let n = unit.len();
    6 <= n && n <= UNIT_LIMIT && unit[0] == 1 && u32_at(unit, 1) + 5 == n && unit[5] < 2
}

// A unit: its return byte and where its block ends, or the refusal.
#[tactic(auto, using(crate::proofs::UnitLaws::front_room), unfolding(definitions::specs::Read::parse_unit, definitions::specs::Read::ended, crate::proofs::Laws::and_then, definitions::specs::Answer::bind))]
pub fn read_unit(unit: &[u8]) -> Result<ReadUnit, Refusal>
    ensures { unit_answer result ≡ map_value (λ script. script.returns) (parse_unit unit.now) }
{
    if !front_good(unit) {
        return Err(Refusal::of(Reason::Front));
    }
    let block = Part {
        unit,
        place: 6,
        end: unit.len(),
    };
    let last = block.block(6, DEPTH_LIMIT)?;
    let end = block.close(last)?;
    Ok(ReadUnit {
        returns: usize::from(unit[5]),
        end,
    })
}
