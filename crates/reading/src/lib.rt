// Reading: a text becomes a draft, or the first question that fails is named with its place.
#![tactic(auto)]

mod blocks;
mod cursor;
mod functions;
mod head;
mod lists;
pub mod read;
mod sides;
mod types;
