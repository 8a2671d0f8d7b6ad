// Checking: the questions of the region rules, put to the commands of a draft in the order of the walk.
//
// That what is in scope is so again stands with each function that has the guard, or calls one that has it.
// A walk takes what is in scope and the spot apart: the one is lent to be changed and put back, the other goes on by value.
// That the spot behind lies in the same table each walk says for itself: no type ties a spot to one table.
//
// A walk is a recursion, as the grammar tells the items: a loop would need an invariant that says the same again.
#![tactic(auto)]

mod atom;
mod block;
mod call;
mod function;
mod header;
pub mod part;
mod row;
mod side;
pub mod verify;
