// Units for the programs that the gate runs: read from text, and made at the limits.
#![tactic(auto)]

pub mod made;
pub mod page;
pub mod text;
