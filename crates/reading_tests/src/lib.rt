// Texts and the answers of reading them, worked out apart from this code.
#![tactic(auto)]

mod edges;
