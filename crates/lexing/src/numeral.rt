// The number that a numeral means.
ghost use Rattle.std.specs.Prelude.{◌≡◌, ◌≤◌};
ghost use Rattle.lexing.specs.Numerals.{number_of, meaning, with_sign, bound};

use crate::class::Class;

const GREATEST: u64 = 2_147_483_647;

const LEAST_SIZE: u64 = 2_147_483_648;

// The number of a sign and a size, which is at most what 32 signed bits hold of that sign.
fn signed(negative: bool, size: u64) -> i32
    requires { size ≤ bound negative }
    ensures { result ≡ with_sign negative size }
{
    if negative {
        (-(size as i64)) as i32
    } else {
        size as i32
    }
}

// What a sign and digits mean: none where they are no digits, or the number passes 32 signed bits.
fn value(negative: bool, digits: &[u8]) -> Option<i32>
    ensures { result ≡ meaning negative digits.now }
{
    if digits.is_empty() {
        return None;
    }
    let limit = if negative { LEAST_SIZE } else { GREATEST };
    // A `try_fold` would take the two ways out and the limit into one closure, and be no shorter.
    let mut size = 0;
    for byte in digits {
        if !Class::Digit.has(*byte) {
            return None;
        }
        size = 10 * size + u64::from(*byte - b'0');
        if size > limit {
            return None;
        }
    }
    Some(signed(negative, size))
}

// The number that a numeral means: none where the bytes are no numeral, or the number passes 32 signed bits.
pub fn number(bytes: &[u8]) -> Option<i32>
    ensures { result ≡ number_of bytes.now }
{
    match bytes {
        [first, digits @ ..] if Class::Minus.has(*first) => value(true, digits),
        _ => value(false, bytes),
    }
}
