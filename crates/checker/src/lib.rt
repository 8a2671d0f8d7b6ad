// Checking: a draft becomes a program, exactly as the region rules admit.
#![tactic(auto)]

pub mod check;
