// Lines and columns, both counted from 1; a line feed ends a line.
ghost use Rattle.std.specs.Prelude.{Some};
ghost use Rattle.report.specs.Positions.{shown};

use std::fmt;

#[derive(Clone, Copy, PartialEq, Eq, Debug)]
pub struct Position {
    pub line: usize,
    pub column: usize,
}

impl fmt::Display for Position {
    ghost output = { λ at. Some (shown at) };

    fn fmt<W: fmt::Write>(&self, f: &mut fmt::Formatter<W>) -> fmt::Result {
        write!(f, "{}:{}", self.line, self.column)
    }
}
