// Tags and their tables, numbers in bytes, the record and its bytes, the marks of labels, the listing's check and the viewer.
#![tactic(auto)]

pub mod listings;
pub mod marks;
pub mod numbers;
pub mod records;
pub mod refusals;
pub mod tables;
pub mod tag;
