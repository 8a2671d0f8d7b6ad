// Equality of bytes.
ghost use Rattle.std.specs.Prelude.{◌≡◌};
ghost use Rattle.lexing.specs.Tokens.{same_bytes};

// Whether two lists of bytes are the same: `==` on slices, told by the definition that the language's rules use.
pub fn same(left: &[u8], right: &[u8]) -> bool
    ensures { result ≡ same_bytes left.now right.now }
{
    left == right
}
