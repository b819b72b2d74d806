// Looking at a unit before any of it is written: each record with its distances, and which of them
// is the first that sixteen bits cannot hold.
#![tactic(auto)]

pub mod distances;
pub mod far;
pub mod looks;
