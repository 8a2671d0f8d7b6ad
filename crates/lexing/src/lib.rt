// Lexing: the bytes of a script become tokens, or the first question that fails is named with its place.
#![tactic(auto)]

pub mod bytes;
mod class;
pub mod fault;
pub mod lex;
pub mod numeral;
pub mod scan;
mod shape;
mod span;
pub mod token;
pub mod tokens;
