// Resolving: a draft whose script has passed every question becomes code for a run.
//
// The names in scope, the tape and the position go apart: each block has names of its own, the tape is one for all, and the
// position is what a walk answers. That it goes onward each walk says for itself: an end does not know where it began.
//
// A walk is a recursion, as the grammar tells the items: a loop would need an invariant that says the same again. What no
// checked script reaches has the fixed meaning that the definitions give it: the slot behind the last, slot 0, the number 0, int.
#![tactic(auto)]

pub mod atoms;
pub mod calls;
pub mod fill;
pub mod functions;
pub mod headers;
pub mod lists;
pub mod names;
pub mod rights;
pub mod walk;
