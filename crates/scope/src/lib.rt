// Scope: what the names of a draft stand for, and the types that their words write.
#![tactic(auto)]

pub mod command;
pub mod name;
pub mod search;
pub mod spot;
pub mod state;
pub mod types;
