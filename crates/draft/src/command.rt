// The commands of a draft, in prefix order: what belongs to a command stands behind it, so that nothing has to be patched.

// A name: where it stands in the text, and how many bytes it has.
#[derive(Clone, Copy)]
pub struct Name {
    pub place: usize,
    pub length: usize,
}

#[derive(Clone, Copy)]
pub enum Operator {
    Add,
    Sub,
    Mul,
    Div,
    Rem,
    Eq,
    Lt,
}

#[derive(Clone, Copy)]
pub enum Command {
    // a function: its regions, its parameters, its result and its block follow
    Function(Name),
    HeaderRegion(Name),
    // a parameter, or the result: its type follows
    Parameter(Name),
    Outcome,
    // a type: behind a list the type of its elements
    Int,
    List(Name),
    // the items of a block: a right side follows, or an atom, and behind each but the last the next item
    Let(Name),
    Print(usize),
    Last,
    // the atoms; an atom as a right side stands for itself
    Variable(Name),
    Number(usize, i32),
    // the right sides: two atoms, a type, two atoms, the regions handed over and the atoms, an atom and two blocks, a block
    Operate(usize, Operator),
    Nil(usize, Name),
    Cons(usize, Name),
    Call(usize, Name),
    Handed(Name),
    If(usize),
    Region(usize, Name),
    // an atom, the block for the empty list, the names, and the block for the others
    Case(usize),
    CaseNames(Name, Name),
}
