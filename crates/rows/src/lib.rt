// Rows: lists of a fixed capacity, which lie in the value itself and never allocate.
#![tactic(auto)]

pub mod row;
