// The meaning of the language: definitions in specs/, and the theorems that hold them to the subject, each named by a contract here.
#![tactic(auto)]

pub mod grammar;
pub mod running;
pub mod typing;
