// The theorems of the grammar and of reading, each named by a contract.
ghost use Rattle.std.specs.Prelude.{◌≡◌};
ghost use Rattle.language.specs.ReadingLaws.{SpellsOne, ReadsSpelled, RefusesRightly, RefusedOnce};
ghost use Rattle.language.specs.ReadingExamples.{ReadingExamples};

// A token list spells at most one script.
pub fn spells_one() -> u8
    ensures is { result ≡ 0 }
    ensures law { SpellsOne }
{
    0
}

// A text is read as a script exactly where its tokens spell it and it keeps to the nesting limits.
pub fn reads_spelled() -> u8
    ensures is { result ≡ 0 }
    ensures law { ReadsSpelled }
{
    0
}

// A refusal of reading says which question fails first, and where.
pub fn refuses_rightly() -> u8
    ensures is { result ≡ 0 }
    ensures law { RefusesRightly }
{
    0
}

// No text is refused for two questions, or at two places.
pub fn refused_once() -> u8
    ensures is { result ≡ 0 }
    ensures law { RefusedOnce }
{
    0
}

// Texts and their answers, by computation.
pub fn reading_examples() -> u8
    ensures is { result ≡ 0 }
    ensures law { ReadingExamples }
{
    0
}
