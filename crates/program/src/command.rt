// The commands of a program, in the order of the text: names are slots, functions are indices, blocks know how they end.
use draft::command::Operator;

// What an atom comes to: the variable in a slot, or a number.
#[derive(Clone, Copy)]
pub enum Operand {
    Slot(usize),
    Number(i32),
}

// How a block ends: the function returns, or the block's value goes to a slot, its region closes or there is none,
// and the run goes on at the command `next`. Not an Option: none would not say that the function returns.
// Whether a region closes is asked of every way of leaving, beside its slot, so that the flag stands alone.
#[derive(Clone, Copy)]
pub enum Way {
    Return,
    Leave {
        next: usize,
        slot: usize,
        closes: bool,
    },
}

#[derive(Clone, Copy)]
pub enum Command {
    // the right sides, with the slot of the variable that gets the value
    Move {
        operand: Operand,
        slot: usize,
    },
    Operate {
        place: usize,
        operator: Operator,
        first: Operand,
        second: Operand,
        slot: usize,
    },
    Nil {
        slot: usize,
    },
    Cons {
        place: usize,
        region: usize,
        head: Operand,
        tail: Operand,
        slot: usize,
    },
    // a call: the regions handed over and the arguments follow
    Call {
        place: usize,
        function: usize,
        slot: usize,
    },
    Hand(usize),
    Argument(Operand),
    // the first block follows; the second begins at the command `second`
    If {
        operand: Operand,
        second: usize,
    },
    // a new region in that slot: its block follows
    Open {
        place: usize,
        region: usize,
    },
    // a list of the region in that slot: head and tail go to the slots `head` and `head` + 1
    Case {
        operand: Operand,
        region: usize,
        second: usize,
        head: usize,
    },
    Print {
        place: usize,
        operand: Operand,
    },
    // the last atom of a block
    Finish {
        operand: Operand,
        way: Way,
    },
}

// A function: where its block starts, and how many regions and parameters it has.
#[derive(Clone, Copy)]
pub struct Function {
    pub start: usize,
    pub regions: usize,
    pub params: usize,
}
