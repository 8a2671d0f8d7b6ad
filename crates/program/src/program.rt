// A program: empty, or the code of a script that has passed every question.
ghost use Rattle.std.specs.Prelude.{◌≡◌, ◌==◌, [], length};
ghost use Rattle.program.specs.Held.{Sound, commands};

use crate::code::Code;

#[derive(Clone, Copy)]
pub struct Program {
    pub code: Code,
    ghost sound: { ∥ Sound code ∥₁ },
}

impl Program {
    // The empty program, which counts as none.
    pub fn empty() -> Program
        ensures { commands result.code ≡ [] }
    {
        Program { code: Code::new() }
    }

    // The program of code that is sound.
    pub fn of(code: Code) -> Program
        requires { ∥ Sound code ∥₁ }
        ensures { result.code ≡ code }
    {
        Program { code }
    }

    // Whether there is no command.
    pub fn is_empty(&self) -> bool
        ensures { result ≡ (length (commands self.now.code) == 0) }
    {
        self.code.commands.len() == 0
    }
}
