// The lowering walk over a unit that was read: expressions, statements, and what holds them.
#![tactic(auto)]

mod arms;
mod exprs;
mod holders;
pub mod nodes;
