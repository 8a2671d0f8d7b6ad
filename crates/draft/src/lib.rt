// Drafts: a script that was read and not yet checked, as a table of commands, with the text that its names stand in.
#![tactic(auto)]

pub mod command;
pub mod draft;
pub mod table;
