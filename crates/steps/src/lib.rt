// The steps of the lowering walk, none of which holds a node. Each changes what it is lent, and nothing else.
#![tactic(auto)]

pub mod calls;
pub mod counters;
pub mod heads;
pub mod labels;
pub mod pieces;
pub mod places;
pub mod records;
pub mod refusals;
pub mod sinks;
pub mod spans;
pub mod switches;
pub mod tags;
