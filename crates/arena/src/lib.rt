#![tactic(auto)]

pub mod arena;
