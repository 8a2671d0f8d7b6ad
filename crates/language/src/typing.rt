// What holds of the typing rules and of checking, each law named by a contract.
ghost use Rattle.std.specs.Prelude.{◌≡◌};
ghost use Rattle.language.specs.TypingLaws.{PassesExactlyTheTyped, AnswersEveryScript, TypesAreUnique, TypesStayInScope, ScopesKeepLimits};
ghost use Rattle.language.specs.CheckingExamples.{ExamplesHold};

pub fn passes_exactly_the_typed() -> u8
    ensures is { result ≡ 0 }
    ensures law { PassesExactlyTheTyped }
{
    0
}

pub fn answers_every_script() -> u8
    ensures is { result ≡ 0 }
    ensures law { AnswersEveryScript }
{
    0
}

pub fn types_are_unique() -> u8
    ensures is { result ≡ 0 }
    ensures law { TypesAreUnique }
{
    0
}

pub fn types_stay_in_scope() -> u8
    ensures is { result ≡ 0 }
    ensures law { TypesStayInScope }
{
    0
}

pub fn examples_hold() -> u8
    ensures is { result ≡ 0 }
    ensures law { ExamplesHold }
{
    0
}

pub fn scopes_keep_limits() -> u8
    ensures is { result ≡ 0 }
    ensures law { ScopesKeepLimits }
{
    0
}
