#![tactic(auto)]

mod command;
pub mod operation;
pub mod shell;
