// Where a byte of a text stands, as a person counts.
#![tactic(auto)]

pub mod locate;
pub mod position;
