#![tactic(auto)]

pub mod build;
pub mod either;
pub mod pile;
