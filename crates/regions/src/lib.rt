#![tactic(auto)]

pub mod lengths;
pub mod quota;
pub mod refusal;
pub mod rules;
pub mod store;
