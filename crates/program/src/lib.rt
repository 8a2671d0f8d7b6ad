// Programs: a checked script with everything static resolved, ready for a run.
#![tactic(auto)]

pub mod code;
pub mod command;
pub mod laws;
pub mod program;
