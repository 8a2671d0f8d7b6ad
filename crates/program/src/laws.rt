// A worked example of resolving, and what holds of every program, each named by a contract.
ghost use Rattle.program.specs.Safe.{PassingIsSafe};
ghost use Rattle.program.specs.Worked.{SumIsResolved};

pub fn sum_is_resolved() -> u8
    ensures { SumIsResolved }
{
    0
}

pub fn passing_is_safe() -> u8
    ensures { PassingIsSafe }
{
    0
}
