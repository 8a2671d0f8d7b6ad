// The longest front of a text whose bytes all pass one test.
ghost use Rattle.std.specs.Prelude.{◌≡◌, ◌≤◌, ℕ, Bool, length};
ghost use Rattle.lexing.specs.Runs.{run};
ghost use Rattle.lexing.specs.Spans.{Tests};

// How many bytes at the front of the text pass the test, one after the other.
pub(crate) fn front<F: Fn(u8) -> bool>(text: &[u8], test: F) -> usize
    requires { F.IsAlwaysCallable test }
    ensures is { (f : ℕ → Bool) → Tests (F.post test) f → result ≡ run f text.now }
    ensures within { result ≤ length text.now }
{
    text.iter().take_while(|byte| test(**byte)).count()
}
